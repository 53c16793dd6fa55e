// Packages: the text of an area and where its payload lies.
ghost use Rattle.std.specs.Prelude.{◌≡◌};
ghost use Rattle.refusal.specs.Number.{number_of};
ghost use Rattle.manifest.specs.Answer.{error_number};

use actions::action::{Action, Change};
use cases::case::field;
use cases::show;
use manifest::package::{PackageError, PackageRead, read_package};
use refusal::Refusal;
use std::io;
use text::version::Version;

fn show_change(rt: &HostRuntime, change: Change) -> io::Result<()> {
    match change {
        Change::Install => show::bytes(rt, b" install "),
        Change::Update => show::bytes(rt, b" update "),
        Change::Remove => show::bytes(rt, b" remove "),
    }
}

fn show_version(rt: &HostRuntime, version: Version) -> io::Result<()> {
    show::number(rt, version.first)?;
    show::byte(rt, b'.')?;
    show::number(rt, version.second)?;
    show::byte(rt, b'.')?;
    show::number(rt, version.third)?;
    show::byte(rt, b'.')?;
    show::number(rt, version.fourth)
}

fn show_action(rt: &HostRuntime, action: Action) -> io::Result<()> {
    let change = action.change;
    show_change(rt, change)?;
    show::number(rt, action.cluster.part)?;
    show::byte(rt, b' ')?;
    show_version(rt, action.cluster.version)?;
    show::bytes(rt, b", ")?;
    show::count(rt, action.cluster.need_count)?;
    show::bytes(rt, b" needs")
}

// Prints the action, and the payload's count, start and sum.
fn show_read(rt: &HostRuntime, read: PackageRead) -> io::Result<()> {
    show_action(rt, read.action)?;
    show::bytes(rt, b", payload ")?;
    show::count(rt, read.count)?;
    show::bytes(rt, b" from ")?;
    show::count(rt, read.start)?;
    show::bytes(rt, b", sum ")?;
    show::number(rt, read.sum)?;
    show::byte(rt, b'\n')
}

// Returns the refusal 9 (InvalidManifest) or 10 (PackageInconsistent).
fn refusal_of(error: PackageError) -> Refusal
    ensures { number_of result ≡ error_number error }
{
    match error {
        PackageError::IllFormed => Refusal::InvalidManifest,
        PackageError::Inconsistent => Refusal::PackageInconsistent,
    }
}

// Reads the area in the field behind what the case is of, and prints the refusal or what was read.
pub fn package(rt: &HostRuntime, case: &[u8]) -> io::Result<()> {
    match read_package(field(case, 2)) {
        Ok(read) => show_read(rt, read),
        Err(error) => show::refused(rt, refusal_of(error).number()),
    }
}
