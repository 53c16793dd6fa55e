// Puts clusters into a table, replaces them and takes them out. Precondition of each function: the table has at most 64 clusters, and fewer
// where one is put in; `apply` compares the count before.
ghost use Rattle.std.specs.Prelude.{◌≡◌, ◌≤◌, ◌<◌};
ghost use Rattle.clusters.specs.Table.{clusters_most};
ghost use Rattle.clusters.specs.View.{view_table};
ghost use Rattle.actions.specs.Place.{insert_place_from};
ghost use Rattle.actions.specs.Exact.{insert_at, insert, replace, close_gap, take_out};

use clusters::cluster::{Cluster, with_mark};
use clusters::table::{Table, find};

// Finds the place of the first cluster with a larger part number, or the place behind the last.
fn insert_place(t: Table, part: u32) -> usize
    requires { t.count ≤ clusters_most }
    ensures { (result ≤ t.count) × (result ≡ insert_place_from 0 part (view_table t)) }
{
    t.clusters[..t.count]
        .iter()
        .position(|c| part < c.part)
        .unwrap_or(t.count)
}

// Puts a cluster at a place and moves what stood from there on up by one. Precondition: also, the place is not past the count;
// `insert_place` gives such a place.
fn insert_at(t: Table, place: usize, c: Cluster) -> Table
    requires { (t.count < clusters_most) × (place ≤ t.count) }
    ensures { result ≡ insert_at place c t }
{
    let mut clusters = t.clusters;
    clusters.copy_within(place..t.count, place + 1);
    clusters[place] = c;
    Table {
        clusters,
        count: t.count + 1,
    }
}

// Puts a cluster before the first with a larger part number.
pub fn insert(t: Table, c: Cluster) -> Table
    requires { t.count < clusters_most }
    ensures { result ≡ insert c t }
{
    insert_at(t, insert_place(t, c.part), c)
}

// Puts a cluster in the place of the one with its part number, whose mark it keeps.
pub fn replace(t: Table, c: Cluster) -> Table
    requires { t.count ≤ clusters_most }
    ensures { result ≡ replace c t }
{
    let Some(place) = find(t, c.part) else {
        return t;
    };
    let mut clusters = t.clusters;
    let old = clusters[place];
    let new = with_mark(c, old.stays);
    clusters[place] = new;
    Table { clusters, ..t }
}

// Takes out the cluster at a place and moves what stands behind it down by one. Precondition: also, a cluster stands at the place; `find`
// gives such a place.
fn close_gap(t: Table, place: usize) -> Table
    requires { (t.count ≤ clusters_most) × (place < t.count) }
    ensures { result ≡ close_gap place t }
{
    let mut clusters = t.clusters;
    clusters.copy_within(place + 1..t.count, place);
    Table {
        clusters,
        count: t.count - 1,
    }
}

// Takes out the cluster with a part number.
pub fn take_out(t: Table, part: u32) -> Table
    requires { t.count ≤ clusters_most }
    ensures { result ≡ take_out part t }
{
    let Some(place) = find(t, part) else {
        return t;
    };
    close_gap(t, place)
}
