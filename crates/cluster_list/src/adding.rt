// Adds what a line says to the table that the lines before it gave. All that this reads of the table, and all that it changes, is the end.
ghost use Rattle.std.specs.Prelude.{◌≡◌, []};
ghost use Rattle.clusters.specs.Cluster.{marked_cluster};
ghost use Rattle.clusters.specs.Struct.{struct_cluster};
ghost use Rattle.clusters.specs.Table.{Table};
ghost use Rattle.cluster_list.specs.Cells.{needs_filled};
ghost use Rattle.cluster_list.specs.Read.{line_added, end_of, end_read};
ghost use Rattle.cluster_list.specs.declared.value_line.LineSays.TheVariants as says;

use crate::cells::cluster_with;
use crate::value_line::LineSays;
use clusters::cluster::{Cluster, NEEDS_MOST, Need, new_cluster, with_mark, with_need};
use clusters::table::CLUSTERS_MOST;
use text::version::{NO_VERSION, Version};

// The end of a table: its last cluster, cleared where there is none, and the number of its clusters.
#[derive(Clone, Copy)]
pub struct TableEnd {
    pub last: Cluster,
    pub count: usize,
}

// Returns the end of the empty table.
pub fn empty_end() -> TableEnd
    ensures { result ≡ end_of [] }
{
    TableEnd {
        last: new_cluster(0, NO_VERSION),
        count: 0,
    }
}

// Makes the cluster of a line's fields, with its unused places cleared.
fn marked_cluster(part: u32, version: Version, need: Option<Need>, stays: bool) -> Cluster
    ensures { result ≡ struct_cluster (marked_cluster part version (needs_filled need) stays) }
{
    let begun = cluster_with(part, version, need);
    with_mark(begun, stays)
}

// Puts the cluster of a line's fields behind the last: at most 64, and with a part number above that of the last.
fn add_cluster(
    part: u32,
    version: Version,
    need: Option<Need>,
    stays: bool,
    end: TableEnd,
) -> Option<TableEnd>
    ensures { (t : Table) → end ≡ end_of t → result ≡ end_read (line_added t (says.Begins part version need stays)) }
{
    if CLUSTERS_MOST <= end.count || part <= end.last.part {
        return None;
    }
    Some(TableEnd {
        last: marked_cluster(part, version, need, stays),
        count: end.count + 1,
    })
}

// Puts a need behind those of the last cluster: at most 4.
fn add_need(n: Need, end: TableEnd) -> Option<TableEnd>
    ensures { (t : Table) → end ≡ end_of t → result ≡ end_read (line_added t (says.Adds n)) }
{
    if end.count < 1 || NEEDS_MOST <= end.last.need_count {
        return None;
    }
    Some(TableEnd {
        last: with_need(end.last, n),
        count: end.count,
    })
}

// Adds what a line says: its cluster behind the last, or its need to the last.
pub fn add_line(says: LineSays, end: TableEnd) -> Option<TableEnd>
    ensures { (t : Table) → end ≡ end_of t → result ≡ end_read (line_added t says) }
{
    match says {
        LineSays::Begins(part, version, need, stays) => add_cluster(
            part, version, need, stays, end,
        ),
        LineSays::Adds(n) => add_need(n, end),
    }
}
