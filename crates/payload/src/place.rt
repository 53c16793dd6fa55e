// Where the payload of a package lies in the store.
ghost use Rattle.std.specs.Prelude.{◌≡◌, ◌≤◌, length, IfOk};
ghost use Rattle.base.specs.Refusals.{first_refusal};
ghost use Rattle.refusal.specs.Number.{refused_with};
ghost use Rattle.model.specs.State as model;
ghost use Rattle.model.specs.Areas.{declared};
ghost use Rattle.model.specs.Sound.{packages_most};
ghost use Rattle.model.specs.Reading.{further_payload_refusals};
ghost use Rattle.state.specs.View.{view_packages};
ghost use Rattle.payload.specs.Place.{place_on_sound};

use areas::lookup::find;
use areas::reading::read_area;
use areas::sizes::area_start;
use refusal::Refusal;
use state::package::PackageState;
use state::transfers::Transfers;

// The payload's start and count in the store.
#[derive(Clone, Copy)]
pub struct PayloadPlace {
    pub start: usize,
    pub count: usize,
}

// Finds the payload's place by the checks after refusal 1 (BadState), which read nothing of the state but its packages. Precondition: there
// are at most 16 packages, and their areas fit the store; those of a sound state do, which the callers require.
pub fn payload_place(t: Transfers, store: &[u8], id: u32) -> Result<PayloadPlace, Refusal>
    requires { (t.count ≤ packages_most) × (declared (view_packages t) ≤ length store.now) }
    ensures refused { (s : model.State) → s.transfers.packages ≡ view_packages t
        → refused_with result ≡ first_refusal (further_payload_refusals s store.now id) }
    ensures place { (s : model.State) → s.transfers.packages ≡ view_packages t → IfOk result (λ p. p ≡ place_on_sound s store.now id) }
{
    let Some(i) = find(t, id) else {
        return Err(Refusal::InvalidTransferId);
    };
    let p = t.packages[i];
    if p.state == PackageState::Transferring {
        return Err(Refusal::WrongPackageState);
    }
    let area = area_start(t, i);
    let end = area + p.size as usize;
    let read = read_area(&store[area..end])?;
    Ok(PayloadPlace {
        start: area + read.start,
        count: read.count,
    })
}
