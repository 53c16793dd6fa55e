// TransferStart: a package of a size is begun behind the others.
#![tactic(auto)]

ghost use Rattle.std.specs.Prelude.{◌≡◌, true, length};
ghost use Rattle.base.specs.Refusals.{first_refusal};
ghost use Rattle.refusal.specs.Number.{refused_with};
ghost use Rattle.model.specs.Calls.{transfer_start};
ghost use Rattle.model.specs.Sound.{sound_for};
ghost use Rattle.model.specs.Step.{step, start_refusals};
ghost use Rattle.state.specs.View.{view_state};
ghost use Rattle.state.specs.Outcome.{outcome, view_answered, SoundIfAccepted};
ghost use Rattle.transfer_start.specs.Start.{start_called, start_called_on_sound};

use areas::sizes::free_bytes;
use refusal::Refusal;
use soundness::sound::sound;
use state::answer::{Answer, Answered, answer_with, refuse};
use state::limits::{ID_MOST, PACKAGES_MOST};
use state::permissions::{TRANSFER_START, allowed};
use state::state::{State, with_transfers};
use state::transfers::with_new_package;

// Checks TransferStart's own refusals, in their order.
#[tactic(auto, unfolding(base::specs::Refusals::first_refusal))]
fn start_refusal(size: u32, count: usize, free: usize, next: u64) -> Result<(), Refusal>
    ensures { refused_with result ≡ first_refusal (start_refusals size count free next) }
{
    if size < 1 {
        return Err(Refusal::IncorrectSize);
    }
    if count >= PACKAGES_MOST {
        return Err(Refusal::TransfersFull);
    }
    if size as usize > free {
        return Err(Refusal::InsufficientMemory);
    }
    if next > ID_MOST {
        return Err(Refusal::IdsSpent);
    }
    Ok(())
}

// Makes the call after refusal 1. Precondition: the state is sound for the store; `transfer_start` and `manager::call` check it.
pub fn transfer_start_on_sound(s: State, store: &[u8], size: u32) -> Answered<Answer>
    requires { sound_for (view_state s) (length store.now) ≡ true }
    ensures { outcome result store.now ≡ start_called_on_sound s store.now size }
{
    if !allowed(s.phase, TRANSFER_START) {
        return refuse(s, Refusal::OperationNotPermitted);
    }
    let t = s.transfers;
    if let Err(refusal) = start_refusal(size, t.count, free_bytes(t, store.len()), t.next) {
        return refuse(s, refusal);
    }
    answer_with(
        Answer::Id(t.next as u32),
        with_transfers(s, with_new_package(t, size)),
    )
}

// TransferStart(size): gives the next id, one above the last given.
pub fn transfer_start(s: State, store: &[u8], size: u32) -> Answered<Answer>
    ensures meaning { view_answered result store.now ≡ step (view_state s) store.now (transfer_start size) }
    ensures exact { outcome result store.now ≡ start_called s store.now size }
    ensures sound { SoundIfAccepted (outcome result store.now) }
{
    if !sound(s, store.len()) {
        return refuse(s, Refusal::BadState);
    }
    transfer_start_on_sound(s, store, size)
}
