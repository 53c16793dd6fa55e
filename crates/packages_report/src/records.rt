// The records of Packages: "records (id, size, received, state) in id order".
ghost use Rattle.std.specs.Prelude.{◌≡◌};
ghost use Rattle.model.specs.State.{package_state_number};
ghost use Rattle.state.specs.View.{view_package_state};
ghost use Rattle.packages_report.specs.Records.{record_of};

use crate::Record;
use state::package::{Package, PackageState};

fn state_number(state: PackageState) -> u32
    ensures { result ≡ package_state_number (view_package_state state) }
{
    match state {
        PackageState::Transferring => 0,
        PackageState::Transferred => 1,
        PackageState::Processing => 2,
        PackageState::Processed => 3,
    }
}

pub fn record_of(p: Package) -> Record
    ensures { result ≡ record_of p }
{
    Record {
        id: p.id,
        size: p.size,
        received: p.received,
        state: state_number(p.state),
    }
}
