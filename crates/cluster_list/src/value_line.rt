// A value line read by itself: what it says, whatever table it is added to.
ghost use Rattle.std.specs.Prelude.{◌≡◌, drop};
ghost use Rattle.cluster_list.specs.Read.{need_line, cluster_begun, cluster_line, line_says};

use crate::cells::{need_fields, part_field};
use crate::mark::{mark_field, no_mark};
use clusters::cluster::Need;
use rows::list_columns::ListColumns;
use rows::reader::{cell_at, cell_is_empty};
use text::cursor::Cursor;
use text::version::{Version, whole_version};

// What a well-formed value line says: it begins a cluster, with this part number and version, the need on the line or none, and this
// mark; or it adds a need to the cluster above it.
#[derive(Clone, Copy)]
pub enum LineSays {
    Begins(u32, Version, Option<Need>, bool),
    Adds(Need),
}

// Reads a line with cluster and version empty: a need of the cluster above it, and no mark.
#[tactic(auto, unfolding(crate::specs::Read::need_line))]
fn need_line(s: &[u8], line: Cursor, columns: ListColumns) -> Option<LineSays>
    ensures { result ≡ need_line columns (drop line.at s.now) }
{
    if !no_mark(s, line, columns.stays) {
        return None;
    }
    let (need, _) = need_fields(s, line, columns.cluster_columns)?;
    Some(LineSays::Adds(need?))
}

// Reads the need, or none, and the mark of a line that begins a cluster.
#[tactic(auto, unfolding(crate::specs::Read::cluster_begun))]
fn begin_cluster(
    s: &[u8],
    line: Cursor,
    columns: ListColumns,
    part: u32,
    version: Version,
) -> Option<LineSays>
    ensures { result ≡ cluster_begun columns (drop line.at s.now) part version }
{
    let (need, _) = need_fields(s, line, columns.cluster_columns)?;
    let (mark, _) = mark_field(s, line, columns.stays)?;
    Some(LineSays::Begins(part, version, need, mark == 1))
}

// Reads a line that begins a cluster: its part number and version, and then what `begin_cluster` reads of it.
#[tactic(auto, unfolding(crate::specs::Read::cluster_line))]
fn cluster_line(s: &[u8], line: Cursor, columns: ListColumns) -> Option<LineSays>
    ensures { result ≡ cluster_line columns (drop line.at s.now) }
{
    let shared = columns.cluster_columns;
    let (part, _) = part_field(cell_at(s, line, shared.cluster))?;
    let (version, _) = whole_version(cell_at(s, line, shared.version))?;
    begin_cluster(s, line, columns, part, version)
}

// Reads the value line at a cursor.
pub fn value_line(s: &[u8], line: Cursor, columns: ListColumns) -> Option<LineSays>
    ensures { result ≡ line_says columns (drop line.at s.now) }
{
    let shared = columns.cluster_columns;
    if cell_is_empty(s, line, shared.cluster) && cell_is_empty(s, line, shared.version) {
        need_line(s, line, columns)
    } else {
        cluster_line(s, line, columns)
    }
}
