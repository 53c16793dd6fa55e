// Packages and their areas taken out. "Deleting moves later areas down whole and fills the bytes between the new and the old end of
// the last area with 0".
ghost use Rattle.std.specs.Prelude.{◌≡◌, ◌≤◌, length};
ghost use Rattle.model.specs.Areas.{declared, deleted};
ghost use Rattle.model.specs.Sound.{packages_most};
ghost use Rattle.state.specs.View.{view_package, view_packages};
ghost use Rattle.areas.specs.Deletion.{keeps, remaining_transfers};

use state::package::{Package, PackageState};
use state::transfers::Transfers;

// What is deleted: by DeleteTransfer the package with an id, by clean-up all that are Processed.
#[derive(Clone, Copy)]
pub enum Deletion {
    WithId(u32),
    AllProcessed,
}

fn keeps(deletion: Deletion, p: Package) -> bool
    ensures { result ≡ keeps deletion (view_package p) }
{
    match deletion {
        Deletion::WithId(id) => id != p.id,
        Deletion::AllProcessed => p.state != PackageState::Processed,
    }
}

// Moves the packages that are kept to the front in their order; the places behind them keep what they held. Precondition: there are at most
// 16 packages; a sound state meets it.
pub fn remaining(t: Transfers, deletion: Deletion) -> Transfers
    requires { t.count ≤ packages_most }
    ensures { result ≡ remaining_transfers deletion t }
{
    let mut packages = t.packages;
    let mut kept = 0;
    for p in &t.packages[..t.count] {
        if keeps(deletion, *p) {
            packages[kept] = *p;
            kept += 1;
        }
    }
    Transfers {
        packages,
        count: kept,
        next: t.next,
    }
}

// Moves the areas of the packages that are kept down behind one another, and fills the bytes that this frees with 0. Precondition: there
// are at most 16 packages and their areas fit the store; a sound state meets it.
pub fn delete_areas(t: Transfers, deletion: Deletion, store: &mut [u8])
    requires { (t.count ≤ packages_most) × (declared (view_packages t) ≤ length store.old) }
    ensures { store.new ≡ deleted (keeps deletion) (view_packages t) store.old }
{
    let mut old_end: usize = 0;
    let mut new_end: usize = 0;
    for p in &t.packages[..t.count] {
        let size = p.size as usize;
        if keeps(deletion, *p) {
            store::move_down(store, old_end, new_end, size);
            new_end += size;
        }
        old_end += size;
    }
    store::clear_part(store, new_end, old_end);
}
