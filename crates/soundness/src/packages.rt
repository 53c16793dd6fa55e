// The packages and their areas.
ghost use Rattle.std.specs.Prelude.{◌≡◌, ◌&&◌, ◌≤◌, leb};
ghost use Rattle.model.specs.Areas.{declared};
ghost use Rattle.model.specs.Sound.{store_most, packages_most, store_sound, received_sound, package_sound, packages_rise, transfers_sound};
ghost use Rattle.state.specs.View.{view_package, view_packages, view_transfers};

use state::limits::{ID_MOST, PACKAGES_MOST, STORE_MOST};
use state::package::{Package, PackageState};
use state::transfers::Transfers;

// Says whether the bytes received are at most the size, and equal to it past Transferring.
fn received_sound(p: Package) -> bool
    ensures { result ≡ received_sound (view_package p) }
{
    if p.state == PackageState::Transferring {
        p.received <= p.size
    } else {
        p.received == p.size
    }
}

// Says whether a package is sound by itself.
fn package_sound(p: Package) -> bool
    ensures { result ≡ package_sound (view_package p) }
{
    let received = received_sound(p);
    (1 <= p.id) & ((1 <= p.size) & (received & (p.blocks <= p.received)))
}

// Says whether the ids rise and are below the next one, each package is sound and its area ends within the store. An area starts within the
// store, so its end does not overflow. Precondition: there are at most 16 packages and the store is within its limit; `transfers_sound`
// checks both before.
fn packages_rise(t: Transfers, store_length: usize) -> bool
    requires { (t.count ≤ packages_most) × (store_length ≤ store_most) }
    ensures { result ≡ packages_rise 0 t.next (view_packages t) && leb (declared (view_packages t)) store_length }
{
    let room = store_length as u64;
    let mut start = 0;
    let mut last = 0;
    for p in &t.packages[..t.count] {
        let id = p.id as u64;
        let end = start + p.size as u64;
        let own = package_sound(*p);
        if !((last < id) & ((id < t.next) & (own & (end <= room)))) {
            return false;
        }
        start = end;
        last = id;
    }
    true
}

// Says whether the packages, the next id and the store's length are within their limits, and the areas fit the store.
pub fn transfers_sound(t: Transfers, store_length: usize) -> bool
    ensures { result ≡ store_sound (view_packages t) store_length && transfers_sound (view_transfers t) }
{
    let next = t.next;
    if !((t.count <= PACKAGES_MOST)
        & ((store_length <= STORE_MOST) & ((1 <= next) & (next <= ID_MOST + 1))))
    {
        return false;
    }
    packages_rise(t, store_length)
}
