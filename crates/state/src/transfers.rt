// The packages in id order, and the id that the next transfer is given.
ghost use Rattle.std.specs.Prelude.{◌≡◌, ◌+◌, ◌<◌};
ghost use Rattle.model.specs.Sound.{packages_most};
ghost use Rattle.state.specs.Exact.{no_transfers, with_package, with_new_package};

use crate::limits::PACKAGES_MOST;
use crate::package::{Package, new_package};

// The first count of the packages count; the places behind them are unused. The next id is 64 bits wide, because it is one above
// the last of 32 bits when all are spent.
#[derive(Clone, Copy)]
pub struct Transfers {
    pub packages: [Package; PACKAGES_MOST],
    pub count: usize,
    pub next: u64,
}

// Gives no packages, with the first id to be given. Every unused place is cleared.
pub fn no_transfers(first: u32) -> Transfers
    ensures { result ≡ no_transfers first }
{
    let cleared = new_package(0, 0);
    Transfers {
        packages: [cleared; PACKAGES_MOST],
        count: 0,
        next: first as u64,
    }
}

// Puts a package in the place of the one at i. Precondition: i is below 16; the calls find i below the count, which is at most 16 in a
// sound state, and `call_examples` gives 0.
pub fn with_package(mut t: Transfers, i: usize, p: Package) -> Transfers
    requires { i < packages_most }
    ensures { result ≡ with_package i p t }
{
    t.packages[i] = p;
    t
}

// Adds a package of a size behind the others, with the next id, which then rises by one. Precondition: there are fewer than 16 packages and
// the next id is of 32 bits; TransferStart refuses otherwise.
pub fn with_new_package(mut t: Transfers, size: u32) -> Transfers
    requires { (t.count < packages_most) × (t.next < 4294967296) }
    ensures { result ≡ with_new_package size t }
{
    t.packages[t.count] = new_package(t.next as u32, size);
    t.count += 1;
    t.next += 1;
    t
}
