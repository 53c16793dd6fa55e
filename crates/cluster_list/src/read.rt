// Reads a cluster list. The table is built from the empty one, so it is known whole, unused places included.
ghost use Rattle.std.specs.Prelude.{◌≡◌, [], length};
ghost use Rattle.cluster_list.specs.Read.{value_lines, read_list, table_read, list_read};

use crate::adding::{add_line, empty_end};
use crate::mark::commas_of;
use crate::value_line::value_line;
use clusters::table::{Table, empty_table};
use rows::list_columns::{ListColumns, list_columns};
use rows::reader::line_at;
use text::cursor::Cursor;

// Reads the value lines from a cursor to the end. Each gives the end of the table anew, and its last cluster is put in its place.
fn value_lines(s: &[u8], from: Cursor, columns: ListColumns) -> Option<Table>
    ensures { result ≡ list_read (value_lines (length s.now) columns s.now from.at []) }
{
    let commas = commas_of(columns.stays);
    let empty = empty_table();
    let mut clusters = empty.clusters;
    let mut end = empty_end();
    let mut at = from.at;
    while at < s.len() {
        let line = Cursor { at };
        let next = line_at(s, line, commas)?;
        let says = value_line(s, line, columns)?;
        end = add_line(says, end)?;
        clusters[end.count - 1] = end.last;
        at = next.at;
    }
    Some(Table {
        clusters,
        count: end.count,
    })
}

// Reads the table that a list says, or returns None where the list is ill-formed: the names line, then the value lines.
#[tactic(auto, unfolding(crate::specs::Read::read_list, crate::specs::Read::list_read))]
pub fn read_list(s: &[u8]) -> Option<Table>
    ensures meaning { table_read result ≡ read_list s.now }
    ensures exact { result ≡ list_read (read_list s.now) }
{
    let (columns, next) = list_columns(s)?;
    value_lines(s, next, columns)
}
