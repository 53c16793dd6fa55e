// Says whether a table meets needs. The table's columns are taken out once, and the needs are looked up in them. Precondition of each
// function: the table, or the one that the columns are of, has at most 64 clusters and a cluster at most 4 needs; `needs_met` requires a
// table within its limits, which a table that was read and the staged table of a sound state are, and `examples` asks `meets` of a table of one cluster.
ghost use Rattle.std.specs.Prelude.{◌≡◌, true, ◌≤◌};
ghost use Rattle.clusters.specs.Cluster.{needs_most};
ghost use Rattle.clusters.specs.Table.{Table as PlainTable, meets, meets_all, needs_met, table_within, clusters_most};
ghost use Rattle.clusters.specs.View.{view_cluster, view_table};
ghost use Rattle.clusters.specs.Columns.{ColumnsOf};

use crate::cluster::{Cluster, Need};
use crate::columns::{Columns, place_of};
use crate::table::Table;
use crate::version::fulfils;

// Says whether the table with these columns holds the needed cluster at a version that fulfils the least one.
fn meets_in(columns: &Columns, n: Need) -> bool
    ensures { (t : PlainTable) → ColumnsOf columns.now t → result ≡ meets t n }
{
    match place_of(&columns.parts, columns.count, n.part) {
        Some(i) => fulfils(columns.versions[i], n.least),
        None => false,
    }
}

// Says whether the table with these columns meets each need of one cluster.
fn meets_all_in(columns: &Columns, c: Cluster) -> bool
    requires { c.need_count ≤ needs_most }
    ensures { (t : PlainTable) → ColumnsOf columns.now t → result ≡ meets_all t (view_cluster c).needs }
{
    c.needs[..c.need_count]
        .iter()
        .all(|n| meets_in(columns, *n))
}

// Says whether the table holds the needed cluster at a version that fulfils the least one.
pub fn meets(t: Table, n: Need) -> bool
    requires { t.count ≤ clusters_most }
    ensures { result ≡ meets (view_table t) n }
{
    meets_in(&Columns::of(t), n)
}

// Says whether the table meets each need of each of its clusters.
pub fn needs_met(t: Table) -> bool
    requires { table_within (view_table t) ≡ true }
    ensures { result ≡ needs_met (view_table t) }
{
    let columns = Columns::of(t);
    for c in &t.clusters[..t.count] {
        if !meets_all_in(&columns, *c) {
            return false;
        }
    }
    true
}
