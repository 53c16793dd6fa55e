// A package's area: its text, and where its payload lies.
ghost use Rattle.std.specs.Prelude.{◌≡◌, [], ◌<◌, length};
ghost use Rattle.clusters.specs.Cluster.{Cluster as PlainCluster, cluster};
ghost use Rattle.clusters.specs.View.{no_version};
ghost use Rattle.actions.specs.View.{action_of};
ghost use Rattle.clusters.specs.Struct.{struct_cluster};
ghost use Rattle.actions.specs.Struct.{struct_action};
ghost use Rattle.manifest.specs.Package.{package_behind, package_from, read_package};
ghost use Rattle.package_heading.specs.Found.{plain_heading};
ghost use Rattle.manifest.specs.Answer.{answer_number, refusal_number, package_answer, PackageEnding};

use crate::lines::{further_most, is_empty_line, only_need};
use actions::action::{Action, Change};
use cluster_list::cells::cluster_with;
use clusters::cluster::{Cluster, new_cluster, with_need};
use package_heading::heading::{Heading, heading_at};
use rows::columns::{PackageColumns, package_columns};
use rows::reader::line_at;
use text::cursor::Cursor;
use text::version::NO_VERSION;

// Why an area has no package to be read.
#[derive(Clone, Copy, Debug, PartialEq, Eq)]
pub enum PackageError {
    // Refusal 9 (InvalidManifest): the text before the payload is ill-formed.
    IllFormed,
    // Refusal 10 (PackageInconsistent): the payload does not have its count of bytes.
    Inconsistent,
}

// What the text of a package says: the action, and the payload's start within the area, count and sum. The payload has its count of bytes.
#[derive(Clone, Copy)]
pub struct PackageRead {
    pub action: Action,
    pub start: usize,
    pub count: usize,
    pub sum: u32,
}

// Makes a cluster with only its part number.
fn bare_cluster(part: u32) -> Cluster
    ensures { result ≡ struct_cluster (cluster part no_version []) }
{
    new_cluster(part, NO_VERSION)
}

// Makes the action that a change of a cluster is. Of a remove only the part number is kept.
fn action_of(change: Change, cluster: Cluster) -> Action
    ensures { (plain : PlainCluster) → cluster ≡ struct_cluster plain → result ≡ struct_action (action_of change plain) }
{
    match change {
        Change::Install | Change::Update => Action { change, cluster },
        Change::Remove => Action {
            change,
            cluster: bare_cluster(cluster.part),
        },
    }
}

// Returns the package whose text ends with the empty line at a cursor. Precondition: the cursor is before the end of the area;
// `package_behind` has found the LF there.
fn package_with(
    s: &[u8],
    heading: Heading,
    cluster: Cluster,
    line: Cursor,
) -> Result<PackageRead, PackageError>
    requires { line.at < length s.now }
    ensures { PackageEnding s.now heading cluster line.at result }
{
    let fields = heading.fields;
    let start = line.at + 1;
    let count = fields.count as usize;
    if s.len() - start == count {
        Ok(PackageRead {
            action: action_of(fields.change, cluster),
            start,
            count,
            sum: fields.sum,
        })
    } else {
        Err(PackageError::Inconsistent)
    }
}

// Reads a package from the cursor behind its first value line on.
fn package_behind(
    s: &[u8],
    columns: PackageColumns,
    from: Cursor,
    heading: Heading,
) -> Result<PackageRead, PackageError>
    ensures { result ≡ package_answer (package_behind columns s.now from.at (plain_heading heading)) }
{
    let fields = heading.fields;
    let mut lines = further_most(fields.change);
    let mut cluster = cluster_with(fields.part, heading.version, heading.need);
    let mut line = from;
    while !is_empty_line(s, line) {
        if lines == 0 {
            return Err(PackageError::IllFormed);
        }
        let next = line_at(s, line, 6).ok_or(PackageError::IllFormed)?;
        let need = only_need(s, line, columns).ok_or(PackageError::IllFormed)?;
        cluster = with_need(cluster, need);
        line = next;
        lines -= 1;
    }
    package_with(s, heading, cluster, line)
}

// Reads a package from the cursor behind its names line on.
#[tactic(auto, unfolding(crate::specs::Answer::package_answer))]
fn package_from(
    s: &[u8],
    columns: PackageColumns,
    first: Cursor,
) -> Result<PackageRead, PackageError>
    ensures { result ≡ package_answer (package_from columns s.now first.at) }
{
    let next = line_at(s, first, 6).ok_or(PackageError::IllFormed)?;
    let heading = heading_at(s, first, columns).ok_or(PackageError::IllFormed)?;
    package_behind(s, columns, next, heading)
}

// Reads the package in an area, from its names line on: its action and where its payload lies, or why there is none.
#[tactic(auto, using(crate::proofs::Payload::answered), unfolding(crate::specs::Package::read_package, crate::specs::Answer::package_answer, base::specs::Refusals::first_refusal))]
pub fn read_package(s: &[u8]) -> Result<PackageRead, PackageError>
    ensures meaning { answer_number result ≡ refusal_number (read_package s.now) }
    ensures exact { result ≡ package_answer (read_package s.now) }
{
    let names = Cursor { at: 0 };
    let first = line_at(s, names, 6).ok_or(PackageError::IllFormed)?;
    let columns = package_columns(s, names, 7).ok_or(PackageError::IllFormed)?;
    package_from(s, columns, first)
}
