// The places of the clusters that each cluster waits for, looked up once and not in each round.
ghost use Rattle.std.specs.Prelude.{◌≡◌, unwrap_or, map, ◌≤◌, ◌<◌, length, take};
ghost use Rattle.clusters.specs.Cluster.{needs_most};
ghost use Rattle.clusters.specs.Table.{Table as PlainTable, clusters_most};
ghost use Rattle.clusters.specs.View.{view_cluster, view_table};
ghost use Rattle.clusters.specs.Place.{place_among, part_of};
ghost use Rattle.start_waves.specs.Waits.{wait_by, PartsOf, WaitsOf};

use clusters::cluster::{Cluster, NEEDS_MOST};
use clusters::columns::place_of;
use clusters::table::{CLUSTERS_MOST, Table};

// A place for each need of each cluster.
pub const WAITS_MOST: usize = CLUSTERS_MOST * NEEDS_MOST;

// The place for need j of the cluster at place i is at i * NEEDS_MOST + j.
#[derive(Clone, Copy)]
pub struct Waits {
    pub places: [usize; WAITS_MOST],
}

// Finds where a part number stands, or gives the place behind all where it is absent. Precondition: the column has 64 places, and at most
// so many count; `wait_of` requires the same.
fn place_or_behind(parts: &[u32; CLUSTERS_MOST], count: usize, part: u32) -> usize
    requires { (count ≤ clusters_most) × (length parts.now ≡ clusters_most) }
    ensures { result ≡ unwrap_or (place_among 0 part (take count parts.now)) clusters_most }
{
    place_of(parts, count, part).unwrap_or(CLUSTERS_MOST)
}

// Finds the place that the cluster at the place own waits for by its need j. Precondition: the column has 64 places, at most so many count,
// and the cluster has at most 4 needs; `waits_of` requires a table within its limits.
fn wait_of(parts: &[u32; CLUSTERS_MOST], count: usize, c: Cluster, own: usize, j: usize) -> usize
    requires { (count ≤ clusters_most) × (length parts.now ≡ clusters_most) × (c.need_count ≤ needs_most) }
    ensures { (t : PlainTable) → take count parts.now ≡ map part_of t → result ≡ wait_by t own (view_cluster c) j }
{
    if j >= c.need_count {
        return own;
    }
    let n = c.needs[j];
    place_or_behind(parts, count, n.part)
}

// Finds the places that the clusters of a table wait for. Precondition: the table is within its limits, and its part numbers stand in the
// column; `write_waves` requires the first and takes out the column.
pub fn waits_of(t: Table, parts: &[u32; CLUSTERS_MOST]) -> Waits
    requires { PartsOf parts.now t }
    ensures { WaitsOf result.places (view_table t) t.count }
{
    let mut places = [0usize; WAITS_MOST];
    for k in 0..t.count * NEEDS_MOST {
        let own = k / NEEDS_MOST;
        places[k] = wait_of(parts, t.count, t.clusters[own], own, k % NEEDS_MOST);
    }
    Waits { places }
}
