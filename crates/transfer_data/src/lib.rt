// TransferData: a block of bytes is written behind those that its package received so far.
#![tactic(auto)]

ghost use Rattle.std.specs.Prelude.{◌≡◌, true, ◌≤◌, length};
ghost use Rattle.base.specs.Refusals.{first_refusal};
ghost use Rattle.refusal.specs.Number.{refused_with};
ghost use Rattle.model.specs.Sound.{sound_for};
ghost use Rattle.model.specs.Step.{data_refusals};
ghost use Rattle.state.specs.View.{view_package, view_state};
ghost use Rattle.state.specs.Outcome.{outcome, view_answered, SoundIfAccepted};
ghost use Rattle.transfer_data.specs.Data.{BlockFits, block_received_at, data_called, data_called_on_sound, data_step};

use areas::lookup::named_package;
use areas::sizes::area_start;
use refusal::Refusal;
use soundness::sound::sound;
use state::answer::{Answer, Answered, answer_with, refuse};
use state::package::{Package, PackageState, with_block};
use state::permissions::TRANSFER_DATA;
use state::state::{State, with_transfers};
use state::transfers::with_package;

// Checks TransferData's own refusals after refusal 4 (InvalidTransferId), in their order. Precondition: the bytes received are at
// most the size; each package of a sound state meets it.
#[tactic(auto, unfolding(base::specs::Refusals::first_refusal))]
fn data_refusal(p: Package, counter: u32, block_length: usize) -> Result<(), Refusal>
    requires { p.received ≤ p.size }
    ensures { refused_with result ≡ first_refusal (data_refusals (view_package p) counter block_length) }
{
    if p.state != PackageState::Transferring {
        return Err(Refusal::WrongPackageState);
    }
    if counter as u64 != p.blocks as u64 + 1 {
        return Err(Refusal::IncorrectBlock);
    }
    let left = p.size - p.received;
    if (block_length < 1) | (block_length > left as usize) {
        return Err(Refusal::IncorrectSize);
    }
    Ok(())
}

// Writes a block behind the bytes that the package p at i received so far, and counts it there. Precondition: the area of p at i lies in
// the store, the block has bytes and fits the size, and the blocks are at most the bytes received; a sound state meets it where no refusal
// applies.
fn accept_block(s: State, store: &mut [u8], i: usize, p: Package, block: &[u8]) -> Answered<Answer>
    requires { BlockFits s.transfers i p (length store.old) (length block.now) }
    ensures { outcome result store.new ≡ block_received_at s store.old i p block.now }
{
    let t = s.transfers;
    store::put_block(store, area_start(t, i) + p.received as usize, block);
    let changed = with_package(t, i, with_block(p, block.len() as u32));
    answer_with(Answer::Done, with_transfers(s, changed))
}

// Makes the call after refusal 1. Precondition: the state is sound for the store; `transfer_data` and `manager::call` check it.
pub fn transfer_data_on_sound(
    s: State,
    store: &mut [u8],
    id: u32,
    counter: u32,
    block: &[u8],
) -> Answered<Answer>
    requires { sound_for (view_state s) (length store.old) ≡ true }
    ensures { outcome result store.new ≡ data_called_on_sound s store.old id counter block.now }
{
    let t = s.transfers;
    let i = match named_package(s.phase, t, TRANSFER_DATA, id) {
        Ok(i) => i,
        Err(refusal) => return refuse(s, refusal),
    };
    let p = t.packages[i];
    if let Err(refusal) = data_refusal(p, counter, block.len()) {
        return refuse(s, refusal);
    }
    accept_block(s, store, i, p, block)
}

// TransferData(id, block counter, data): writes the block behind those received. The counter begins at 1 and rises by one per accepted
// block.
pub fn transfer_data(
    s: State,
    store: &mut [u8],
    id: u32,
    counter: u32,
    block: &[u8],
) -> Answered<Answer>
    ensures meaning { view_answered result store.new ≡ data_step s store.old id counter block.now }
    ensures exact { outcome result store.new ≡ data_called s store.old id counter block.now }
    ensures sound { SoundIfAccepted (outcome result store.new) }
{
    if !sound(s, store.len()) {
        return refuse(s, Refusal::BadState);
    }
    transfer_data_on_sound(s, store, id, counter, block)
}
