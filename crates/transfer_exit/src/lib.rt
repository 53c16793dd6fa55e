// TransferExit: a package that has all its bytes is checked, and is Transferred.
#![tactic(auto)]

ghost use Rattle.std.specs.Prelude.{◌≡◌, true, ◌<◌, length};
ghost use Rattle.base.specs.Refusals.{first_refusal};
ghost use Rattle.refusal.specs.Number.{refused_with};
ghost use Rattle.model.specs.Calls.{transfer_exit};
ghost use Rattle.model.specs.Sound.{packages_most, sound_for};
ghost use Rattle.model.specs.Step.{step, exit_refusals};
ghost use Rattle.state.specs.View.{view_package, view_state};
ghost use Rattle.state.specs.declared.answer.Answer.TheVariants.{Done};
ghost use Rattle.state.specs.declared.package.PackageState.TheVariants.{Transferred};
ghost use Rattle.state.specs.Exact.{in_state, with_package, with_transfers};
ghost use Rattle.state.specs.Outcome.{outcome, answered, view_answered, SoundIfAccepted};
ghost use Rattle.areas.specs.Inside.{AreaInside, read_at};
ghost use Rattle.transfer_exit.specs.Exit.{exit_called, exit_called_on_sound};

use areas::lookup::named_package;
use areas::reading::read_area;
use areas::sizes::area_start;
use refusal::Refusal;
use soundness::sound::sound;
use state::answer::{Answer, Answered, answer_with, refuse};
use state::package::{Package, PackageState, in_state};
use state::permissions::TRANSFER_EXIT;
use state::state::{State, with_transfers};
use state::transfers::{Transfers, with_package};

// Checks TransferExit's own refusals after refusal 4 (InvalidTransferId) of the package p at i, in their order. Precondition: the area of p
// at i lies in the store; a package that was found in a sound state meets it.
#[tactic(auto, unfolding(base::specs::Refusals::first_refusal))]
fn exit_refusal(t: Transfers, i: usize, p: Package, store: &[u8]) -> Result<(), Refusal>
    requires { AreaInside t i p (length store.now) }
    ensures { refused_with result ≡ first_refusal (exit_refusals (view_package p) (read_at t i p store.now)) }
{
    if p.state != PackageState::Transferring {
        return Err(Refusal::WrongPackageState);
    }
    if p.received < p.size {
        return Err(Refusal::InsufficientData);
    }
    let start = area_start(t, i);
    read_area(&store[start..start + p.size as usize])?;
    Ok(())
}

// Makes the package p at i Transferred. Precondition: i is below 16; a place that was found in a sound state meets it.
fn accept_package(s: State, i: usize, p: Package) -> Answered<Answer>
    requires { i < packages_most }
    ensures { result ≡ answered Done (with_transfers (with_package i (in_state Transferred p) s.transfers) s) }
{
    let t = s.transfers;
    let changed = with_package(t, i, in_state(p, PackageState::Transferred));
    answer_with(Answer::Done, with_transfers(s, changed))
}

// Makes the call after refusal 1. Precondition: the state is sound for the store; `transfer_exit` and `manager::call` check it.
pub fn transfer_exit_on_sound(s: State, store: &[u8], id: u32) -> Answered<Answer>
    requires { sound_for (view_state s) (length store.now) ≡ true }
    ensures { outcome result store.now ≡ exit_called_on_sound s store.now id }
{
    let t = s.transfers;
    let i = match named_package(s.phase, t, TRANSFER_EXIT, id) {
        Ok(i) => i,
        Err(refusal) => return refuse(s, refusal),
    };
    let p = t.packages[i];
    if let Err(refusal) = exit_refusal(t, i, p, store) {
        return refuse(s, refusal);
    }
    accept_package(s, i, p)
}

// TransferExit(id): checks the package, which is then Transferred.
pub fn transfer_exit(s: State, store: &[u8], id: u32) -> Answered<Answer>
    ensures meaning { view_answered result store.now ≡ step (view_state s) store.now (transfer_exit id) }
    ensures exact { outcome result store.now ≡ exit_called s store.now id }
    ensures sound { SoundIfAccepted (outcome result store.now) }
{
    if !sound(s, store.len()) {
        return refuse(s, Refusal::BadState);
    }
    transfer_exit_on_sound(s, store, id)
}
