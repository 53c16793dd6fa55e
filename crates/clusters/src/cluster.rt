// A cluster: a part number, a version, its needs in order, and a mark.
ghost use Rattle.std.specs.Prelude.{◌≡◌, ◌<◌};
ghost use Rattle.clusters.specs.Cluster.{needs_most};
ghost use Rattle.clusters.specs.Exact.{new_cluster, with_need, with_mark};

use text::version::{NO_VERSION, Version};

// The most needs that a cluster has: the one place in the code that has this limit.
pub const NEEDS_MOST: usize = 4;

// A cluster that must be there, at the least version or above and with the same first part. It may be the one that has the need.
#[derive(Clone, Copy)]
pub struct Need {
    pub part: u32,
    pub least: Version,
}

// The first need_count of the needs count; the places behind them are unused. A cluster that stays can't be removed.
#[derive(Clone, Copy)]
pub struct Cluster {
    pub part: u32,
    pub version: Version,
    pub needs: [Need; NEEDS_MOST],
    pub need_count: usize,
    pub stays: bool,
}

// Makes a cluster with no needs, mark 0 and every unused place 0.
pub fn new_cluster(part: u32, version: Version) -> Cluster
    ensures { result ≡ new_cluster part version }
{
    let no_need = Need {
        part: 0,
        least: NO_VERSION,
    };
    Cluster {
        part,
        version,
        needs: [no_need; NEEDS_MOST],
        need_count: 0,
        stays: false,
    }
}

// Adds a need to a cluster, behind the others. Precondition: the cluster has fewer than 4; callers add to a new cluster, compare the number
// before, or read no more lines of needs than there is room for.
pub fn with_need(c: Cluster, n: Need) -> Cluster
    requires { c.need_count < needs_most }
    ensures { result ≡ with_need c n }
{
    let mut needs = c.needs;
    needs[c.need_count] = n;
    Cluster {
        needs,
        need_count: c.need_count + 1,
        ..c
    }
}

// Gives a cluster this mark.
pub fn with_mark(c: Cluster, stays: bool) -> Cluster
    ensures { result ≡ with_mark c stays }
{
    Cluster { stays, ..c }
}
