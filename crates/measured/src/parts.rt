// Parts of the calls by themselves: the sum, the reader of a package, the reader of a list with what asks the needs.
ghost use Rattle.std.specs.Prelude.{◌≡◌, true};
ghost use Rattle.checksum.specs.Sum.{sum_of};
ghost use Rattle.clusters.specs.Table.{needs_met, table_within};
ghost use Rattle.clusters.specs.View.{view_table};
ghost use Rattle.manifest.specs.Package.{read_package};
ghost use Rattle.manifest.specs.Answer.{package_read};
ghost use Rattle.measured.specs.Turns.{needs_met_in, met_at, turns_met};

use checksum::{continue_sum, number, start};
use cluster_list::read::read_list;
use clusters::needs::needs_met;
use clusters::table::{Table, empty_table};
use manifest::package::read_package;

// Returns the sum of some bytes.
#[unsafe(no_mangle)]
pub extern "C" fn measured_sum(bytes: &[u8]) -> u32
    ensures { result ≡ sum_of bytes.now }
{
    number(continue_sum(start(), bytes))
}

// Reads a package and returns the part number that its action names, 0 where it is refused.
#[unsafe(no_mangle)]
pub extern "C" fn measured_read_package(area: &[u8]) -> u32
    ensures { result ≡ (package_read (read_package area.now)).action.cluster.part }
{
    match read_package(area) {
        Ok(read) => read.action.cluster.part,
        Err(_) => 0,
    }
}

// Returns 1 if a turn is 1 and the table meets all needs, else 0. Whether it is asked hangs on what is lent, so the compiler cannot ask once
// for all turns. Precondition: the table is within its limits; `measured_needs_met` hands over one that was read.
#[tactic(auto, unfolding(crate::specs::Turns::met_at))]
fn met_at(table: Table, turn: u8) -> usize
    requires { table_within (view_table table) ≡ true }
    ensures { result ≡ met_at (needs_met (view_table table)) turn }
{
    if turn == 1 && needs_met(table) { 1 } else { 0 }
}

// Reads a list and asks at each turn that is 1 whether its table meets all needs; returns at how many it does.
#[unsafe(no_mangle)]
pub extern "C" fn measured_needs_met(list: &[u8], turns: &[u8]) -> usize
    ensures { result ≡ turns_met (needs_met_in list.now) turns.now }
{
    let table = read_list(list).unwrap_or(empty_table());
    let mut met = 0;
    for turn in turns {
        met += met_at(table, *turn);
    }
    met
}
