// The limits of versions, needs, clusters and tables, checked on any values of the fields. Tests are joined by `&`, which is
// quicker here than a return at each.
ghost use Rattle.std.specs.Prelude.{◌≡◌, ◌≤◌};
ghost use Rattle.text.specs.Version.{version_within};
ghost use Rattle.clusters.specs.Cluster.{part_within, need_within, needs_within, cluster_within, needs_most};
ghost use Rattle.clusters.specs.Table.{rising_above, table_within, clusters_most};
ghost use Rattle.clusters.specs.View.{view_cluster, view_table};

use crate::cluster::{Cluster, NEEDS_MOST, Need};
use crate::table::{CLUSTERS_MOST, Table};
use text::version::{VERSION_PART_MOST, Version};

// Says whether a version is within the limits. The fourth part needs no test: its largest value is the largest of 32 bits.
pub fn version_within(v: Version) -> bool
    ensures { result ≡ version_within v }
{
    (v.first <= VERSION_PART_MOST)
        & ((v.second <= VERSION_PART_MOST) & (v.third <= VERSION_PART_MOST))
}

// Says whether a part number is within the limits. The largest needs no test: it is the largest of 32 bits.
pub fn part_within(part: u32) -> bool
    ensures { result ≡ part_within part }
{
    1 <= part
}

pub fn need_within(n: Need) -> bool
    ensures { result ≡ need_within n }
{
    part_within(n.part) & version_within(n.least)
}

// Says whether each need of a cluster is within the limits. Precondition: the cluster has at most 4; `cluster_within` compares their number
// before.
fn needs_within(c: Cluster) -> bool
    requires { c.need_count ≤ needs_most }
    ensures { result ≡ needs_within (view_cluster c).needs }
{
    c.needs[..c.need_count].iter().all(|n| need_within(*n))
}

pub fn cluster_within(c: Cluster) -> bool
    ensures { result ≡ cluster_within (view_cluster c) }
{
    c.need_count <= NEEDS_MOST
        && (part_within(c.part) & (version_within(c.version) & needs_within(c)))
}

// Says whether the clusters are within their limits and in rising part number. Precondition: the table has at most 64; `table_within`
// compares their number before.
fn rising(t: Table) -> bool
    requires { t.count ≤ clusters_most }
    ensures { result ≡ rising_above 0 (view_table t) }
{
    let mut last: u32 = 0;
    for c in &t.clusters[..t.count] {
        if !((last < c.part) & cluster_within(*c)) {
            return false;
        }
        last = c.part;
    }
    true
}

pub fn table_within(t: Table) -> bool
    ensures { result ≡ table_within (view_table t) }
{
    t.count <= CLUSTERS_MOST && rising(t)
}
