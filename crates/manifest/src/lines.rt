// The lines of a package behind the first value line.
ghost use Rattle.std.specs.Prelude.{◌≡◌, drop};
ghost use Rattle.manifest.specs.Package.{is_empty_line, no_cluster, no_payload, only_need, further_most};

use actions::action::Change;
use cluster_list::cells::need_fields;
use clusters::cluster::Need;
use rows::columns::{ClusterColumns, PackageColumns};
use rows::reader::{cell_is_empty, line_at};
use text::cursor::Cursor;

// Returns true if the line at a cursor is the empty line: one field, and nothing in it.
pub fn is_empty_line(s: &[u8], line: Cursor) -> bool
    ensures { result ≡ is_empty_line s.now line.at }
{
    line_at(s, line, 0).is_some() && cell_is_empty(s, line, 0)
}

// Returns true if cluster and version of the line at a cursor are empty.
fn no_cluster(s: &[u8], line: Cursor, columns: ClusterColumns) -> bool
    ensures { result ≡ no_cluster columns (drop line.at s.now) }
{
    cell_is_empty(s, line, columns.cluster) && cell_is_empty(s, line, columns.version)
}

// Returns true if action, payload and sum of the line at a cursor are empty.
fn no_payload(s: &[u8], line: Cursor, columns: PackageColumns) -> bool
    ensures { result ≡ no_payload columns (drop line.at s.now) }
{
    cell_is_empty(s, line, columns.action)
        && cell_is_empty(s, line, columns.payload)
        && cell_is_empty(s, line, columns.sum)
}

// Reads the need of a value line behind the first, at a cursor. Its caller has the cursor behind the line from `line_at`.
#[tactic(auto, unfolding(crate::specs::Package::only_need))]
pub fn only_need(s: &[u8], line: Cursor, columns: PackageColumns) -> Option<Need>
    ensures { result ≡ only_need columns (drop line.at s.now) }
{
    if !no_payload(s, line, columns) || !no_cluster(s, line, columns.cluster_columns) {
        return None;
    }
    let (need, _) = need_fields(s, line, columns.cluster_columns)?;
    need
}

// Returns how many value lines may follow the first.
pub fn further_most(change: Change) -> usize
    ensures { result ≡ further_most change }
{
    match change {
        Change::Install | Change::Update => 3,
        Change::Remove => 0,
    }
}
