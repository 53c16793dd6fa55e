// What is done to the bytes of the lent store, by position. Every function is total: a part that does not lie in the store, and a
// move up, leave the store as it was.
#![tactic(auto)]

ghost use Rattle.std.specs.Prelude.{◌≡◌, length, replicate};
ghost use Rattle.store.specs.Positions.{written, cleared, moved_down};

// Fills all bytes with 0: what Load does to the store.
pub fn clear(bytes: &mut [u8])
    ensures { bytes.new ≡ replicate (length bytes.old) 0 }
{
    bytes.fill(0);
}

// Fills the bytes from `from` up to `to` with 0: the part is lent to `clear`.
pub fn clear_part(store: &mut [u8], from: usize, to: usize)
    ensures { store.new ≡ cleared from to store.old }
{
    if from <= to && to <= store.len() {
        clear(&mut store[from..to]);
    }
}

// Writes a block from `at` on: the part of the store that it is as long as is lent to the copier.
pub fn put_block(store: &mut [u8], at: usize, block: &[u8])
    ensures { store.new ≡ written at block.now store.old }
{
    if at <= store.len() && block.len() <= store.len() - at {
        store[at..at + block.len()].copy_from_slice(block);
    }
}

// Moves the `count` bytes from `from` on down to `to`, the lowest first, so that each is read before it is overwritten. Where the two are
// one place there is nothing to do.
pub fn move_down(store: &mut [u8], from: usize, to: usize, count: usize)
    ensures { store.new ≡ moved_down from to count store.old }
{
    if to < from && from <= store.len() && count <= store.len() - from {
        store.copy_within(from..from + count, to);
    }
}
