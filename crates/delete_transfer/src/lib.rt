// DeleteTransfer: a package is taken out, and its area with it.
#![tactic(auto)]

ghost use Rattle.std.specs.Prelude.{◌≡◌, true, ◌≤◌, length};
ghost use Rattle.base.specs.Refusals.{first_refusal};
ghost use Rattle.refusal.specs.Number.{refused_with};
ghost use Rattle.model.specs.Areas.{declared};
ghost use Rattle.model.specs.Calls.{delete_transfer};
ghost use Rattle.model.specs.Sound.{packages_most, sound_for};
ghost use Rattle.model.specs.Step.{step, delete_refusals};
ghost use Rattle.state.specs.View.{view_package_state, view_packages, view_state};
ghost use Rattle.state.specs.Outcome.{outcome, view_answered, SoundIfAccepted};
ghost use Rattle.delete_transfer.specs.Delete.{without_transfer, delete_called, delete_called_on_sound};

use areas::deletion::{Deletion, delete_areas, remaining};
use areas::lookup::named_package;
use refusal::Refusal;
use soundness::sound::sound;
use state::answer::{Answer, Answered, answer_with, refuse};
use state::package::PackageState;
use state::permissions::DELETE_TRANSFER;
use state::state::{State, with_transfers};

// Checks DeleteTransfer's own refusal after refusal 4 (InvalidTransferId).
#[tactic(auto, unfolding(base::specs::Refusals::first_refusal))]
fn delete_refusal(state: PackageState) -> Result<(), Refusal>
    ensures { refused_with result ≡ first_refusal (delete_refusals (view_package_state state)) }
{
    if matches!(state, PackageState::Processing | PackageState::Processed) {
        return Err(Refusal::WrongPackageState);
    }
    Ok(())
}

// Takes out the package with an id and its area. Precondition: there are at most 16 packages and their areas fit the store; a sound state
// meets it.
fn take_out(s: State, store: &mut [u8], id: u32) -> Answered<Answer>
    requires { (s.transfers.count ≤ packages_most) × (declared (view_packages s.transfers) ≤ length store.old) }
    ensures { outcome result store.new ≡ without_transfer s store.old id }
{
    let t = s.transfers;
    let deletion = Deletion::WithId(id);
    delete_areas(t, deletion, store);
    answer_with(Answer::Done, with_transfers(s, remaining(t, deletion)))
}

// Makes the call after refusal 1. Precondition: the state is sound for the store; `delete_transfer` and `manager::call` check it.
pub fn delete_transfer_on_sound(s: State, store: &mut [u8], id: u32) -> Answered<Answer>
    requires { sound_for (view_state s) (length store.old) ≡ true }
    ensures { outcome result store.new ≡ delete_called_on_sound s store.old id }
{
    let t = s.transfers;
    let i = match named_package(s.phase, t, DELETE_TRANSFER, id) {
        Ok(i) => i,
        Err(refusal) => return refuse(s, refusal),
    };
    if let Err(refusal) = delete_refusal(t.packages[i].state) {
        return refuse(s, refusal);
    }
    take_out(s, store, id)
}

// DeleteTransfer(id): takes the package out and moves later areas down.
pub fn delete_transfer(s: State, store: &mut [u8], id: u32) -> Answered<Answer>
    ensures meaning { view_answered result store.new ≡ step (view_state s) store.old (delete_transfer id) }
    ensures exact { outcome result store.new ≡ delete_called s store.old id }
    ensures sound { SoundIfAccepted (outcome result store.new) }
{
    if !sound(s, store.len()) {
        return refuse(s, Refusal::BadState);
    }
    delete_transfer_on_sound(s, store, id)
}
