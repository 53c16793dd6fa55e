// How many packages are in a state.
ghost use Rattle.std.specs.Prelude.{◌≡◌, cond, ◌≤◌};
ghost use Rattle.model.specs.Sound.{packages_most};
ghost use Rattle.state.specs.View.{view_packages};
ghost use Rattle.soundness.specs.Parts.{counts_of};

use state::package::PackageState;
use state::transfers::Transfers;

// The packages that are Processed, and those that are Processing.
#[derive(Clone, Copy)]
pub struct Counts {
    pub processed: usize,
    pub processing: usize,
}

// Gives what something adds to a count where it is there.
pub fn one_if(holds: bool) -> usize
    ensures { result ≡ cond holds 1 0 }
{
    if holds { 1 } else { 0 }
}

// Counts the packages that are Processed and those that are Processing. Precondition: there are at most 16 packages; `transfers_sound`
// checks it before.
pub fn count_states(t: Transfers) -> Counts
    requires { t.count ≤ packages_most }
    ensures { result ≡ counts_of (view_packages t) }
{
    let mut processed = 0;
    let mut processing = 0;
    for p in &t.packages[..t.count] {
        processed += one_if(p.state == PackageState::Processed);
        processing += one_if(p.state == PackageState::Processing);
    }
    Counts {
        processed,
        processing,
    }
}
