// A table of clusters in rising part number.
ghost use Rattle.std.specs.Prelude.{◌≡◌, ◌≤◌, ◌<◌};
ghost use Rattle.place_in_list.specs.Place.{found_in};
ghost use Rattle.clusters.specs.Table.{find, clusters_most};
ghost use Rattle.clusters.specs.View.{view_table};
ghost use Rattle.clusters.specs.Place.{place_of};
ghost use Rattle.clusters.specs.Exact.{empty_table, append};

use crate::cluster::{Cluster, new_cluster};
use text::version::NO_VERSION;

// The most clusters that a table has: the one place in the code that has this limit.
pub const CLUSTERS_MOST: usize = 64;

// The first count of the clusters count; the places behind them are unused.
#[derive(Clone, Copy)]
pub struct Table {
    pub clusters: [Cluster; CLUSTERS_MOST],
    pub count: usize,
}

// Finds where the cluster with a part number stands. Precondition: the table has at most 64 clusters; the callers in `actions` require the
// same.
pub fn find(t: Table, part: u32) -> Option<usize>
    requires { t.count ≤ clusters_most }
    ensures place { result ≡ place_of part (view_table t) }
    ensures found { found_in (view_table t) result ≡ find part (view_table t) }
{
    t.clusters[..t.count].iter().position(|c| part == c.part)
}

// Makes a table with no clusters and every unused place 0.
pub fn empty_table() -> Table
    ensures { result ≡ empty_table }
{
    Table {
        clusters: [new_cluster(0, NO_VERSION); CLUSTERS_MOST],
        count: 0,
    }
}

// Puts a cluster behind the last. Precondition: the table has fewer than 64 clusters; callers begin with the empty table.
pub fn append(t: Table, c: Cluster) -> Table
    requires { t.count < clusters_most }
    ensures { result ≡ append t c }
{
    let mut clusters = t.clusters;
    clusters[t.count] = c;
    Table {
        clusters,
        count: t.count + 1,
    }
}
