// Declared sizes added up: at most 16 of 32 bits each, so that the sum fits 64 bits.
ghost use Rattle.std.specs.Prelude.{◌≡◌, ◌-◌, ◌≤◌, take};
ghost use Rattle.model.specs.Areas.{declared};
ghost use Rattle.model.specs.Sound.{packages_most};
ghost use Rattle.state.specs.View.{view_packages};

use state::transfers::Transfers;

// Finds where the area of the package at i starts: behind the areas of those before it. Precondition: there are at most 16 packages, and i
// is at most their number; a sound state and a place that was found meet it.
pub fn area_start(t: Transfers, i: usize) -> usize
    requires { (t.count ≤ packages_most) × (i ≤ t.count) }
    ensures { result ≡ declared (take i (view_packages t)) }
{
    let mut start: usize = 0;
    for p in &t.packages[..i] {
        start += p.size as usize;
    }
    start
}

// Counts the bytes of a store of a length that no package declares. Precondition: there are at most 16 packages; a sound state meets it.
pub fn free_bytes(t: Transfers, store_length: usize) -> usize
    requires { t.count ≤ packages_most }
    ensures { result ≡ store_length - declared (view_packages t) }
{
    store_length.saturating_sub(area_start(t, t.count))
}
