// Places of packages: of the one with an id, the one that a call names, and the one that is processing. Precondition of each function:
// there are at most 16 packages; a sound state meets it, and `soundness` checks it first.
ghost use Rattle.std.specs.Prelude.{◌≡◌, ◌≤◌, Some, IfOk};
ghost use Rattle.base.specs.Refusals.{first_refusal};
ghost use Rattle.refusal.specs.Number.{refused_with};
ghost use Rattle.place_in_list.specs.Place.{found_in};
ghost use Rattle.model.specs.Areas.{find};
ghost use Rattle.model.specs.Sound.{packages_most};
ghost use Rattle.state.specs.View.{view_packages, view_phase};
ghost use Rattle.areas.specs.Place.{place_of, processing_place};
ghost use Rattle.areas.specs.Named.{named_refusals};

use refusal::Refusal;
use state::package::PackageState;
use state::permissions::allowed;
use state::phase::Phase;
use state::transfers::Transfers;

// Finds the place of the package with an id.
pub fn find(t: Transfers, id: u32) -> Option<usize>
    requires { t.count ≤ packages_most }
    ensures place { result ≡ place_of id (view_packages t) }
    ensures found { found_in (view_packages t) result ≡ find id (view_packages t) }
{
    t.packages[..t.count].iter().position(|p| id == p.id)
}

// Finds the place of the package with an id, for the call with a number in a manager's state: checks the refusals 3
// (OperationNotPermitted) and 4 (InvalidTransferId).
pub fn named_package(phase: Phase, t: Transfers, call: usize, id: u32) -> Result<usize, Refusal>
    requires { t.count ≤ packages_most }
    ensures refused { refused_with result ≡ first_refusal (named_refusals (view_phase phase) (view_packages t) call id) }
    ensures place { IfOk result (λ i. place_of id (view_packages t) ≡ Some i) }
{
    if !allowed(phase, call) {
        return Err(Refusal::OperationNotPermitted);
    }
    find(t, id).ok_or(Refusal::InvalidTransferId)
}

// Finds the place of the package that is processing; where none is, it gives the number of packages.
pub fn processing_place(t: Transfers) -> usize
    requires { t.count ≤ packages_most }
    ensures { result ≡ processing_place (view_packages t) }
{
    t.packages[..t.count]
        .iter()
        .position(|p| p.state == PackageState::Processing)
        .unwrap_or(t.count)
}
