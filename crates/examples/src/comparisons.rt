// Versions compared, and needs met by a table.
use cases::case::field;
use cases::show;
use cases::values::{number_of, version_of};
use cluster_list::read::read_list;
use clusters::cluster::{Need, new_cluster};
use clusters::needs::{meets, needs_met};
use clusters::table::{append, empty_table};
use clusters::version::above;
use std::io;
use text::version::Version;

// Prints whether a version is above another.
pub fn compare(rt: &HostRuntime, case: &[u8]) -> io::Result<()> {
    let v = version_of(field(case, 1));
    let w = version_of(field(case, 2));
    show::yes_or_no(rt, above(v, w))
}

// Says whether a table that holds cluster 20 alone, at a version, meets a need.
fn is_met(part: u32, least: Version, held: Version) -> bool {
    let table = append(empty_table(), new_cluster(20, held));
    meets(table, Need { part, least })
}

// Prints whether a need of a part number at a least version is met in a table that holds cluster 20 at a version.
pub fn need(rt: &HostRuntime, case: &[u8]) -> io::Result<()> {
    let part = number_of(field(case, 1));
    let least = version_of(field(case, 2));
    let held = version_of(field(case, 3));
    show::yes_or_no(rt, is_met(part, least, held))
}

// Prints whether the table that a list says meets all its needs. The fields before the list say in words what is in it.
pub fn needs(rt: &HostRuntime, case: &[u8]) -> io::Result<()> {
    let table = read_list(field(case, 3)).unwrap_or(empty_table());
    show::yes_or_no(rt, needs_met(table))
}
