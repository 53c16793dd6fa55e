// The refusals of an action: 11 to 15, and 21 directly after 13.
ghost use Rattle.std.specs.Prelude.{◌≡◌, ◌≤◌};
ghost use Rattle.base.specs.Refusals.{number_or_zero};
ghost use Rattle.refusal.specs.Number.{refused_with};
ghost use Rattle.clusters.specs.Cluster.{Cluster as PlainCluster};
ghost use Rattle.clusters.specs.Table as table;
ghost use Rattle.clusters.specs.Table.{clusters_most};
ghost use Rattle.clusters.specs.View.{view_table};
ghost use Rattle.actions.specs.Refusals.{cluster_present, cluster_absent, cluster_stays, old_version, table_full};
ghost use Rattle.actions.specs.Staged.{staged_as, staged_refusal, ByStaged, ByVersion, ByTouched, NumberByTouched};
ghost use Rattle.actions.specs.View.{action_of, view_action};

use crate::action::{Action, Change};
use clusters::table::{CLUSTERS_MOST, Table, find};
use clusters::version::above;
use refusal::Refusal;
use text::version::Version;

// What is looked at of a staged cluster: its version and mark.
#[derive(Clone, Copy)]
pub struct Staged {
    pub version: Version,
    pub stays: bool,
}

// Says whether this applies: "12. ClusterPresent: install of a staged cluster."
fn cluster_present(staged: Option<Staged>, change: Change) -> bool
    ensures { ByStaged staged change cluster_present result }
{
    match change {
        Change::Install => staged.is_some(),
        Change::Update | Change::Remove => false,
    }
}

// Says whether this applies: "13. ClusterAbsent: update or remove of one not staged."
fn cluster_absent(staged: Option<Staged>, change: Change) -> bool
    ensures { ByStaged staged change cluster_absent result }
{
    match change {
        Change::Install => false,
        Change::Update | Change::Remove => staged.is_none(),
    }
}

// Says whether this applies: "21 Stays .. for remove of a cluster marked 1"
fn cluster_stays(staged: Option<Staged>, change: Change) -> bool
    ensures { ByStaged staged change cluster_stays result }
{
    match (change, staged) {
        (Change::Remove, Some(old)) => old.stays,
        _ => false,
    }
}

// Says whether this applies: "14. OldVersion: update not above the staged version."
fn old_version(staged: Option<Staged>, change: Change, version: Version) -> bool
    ensures { ByVersion staged change version old_version result }
{
    match (change, staged) {
        (Change::Update, Some(old)) => !above(version, old.version),
        _ => false,
    }
}

// Says whether this applies: "15. TableFull: install with 64 staged."
fn table_full(count: usize, change: Change) -> bool
    ensures { (c : PlainCluster) → result ≡ table_full count (action_of change c) }
{
    match change {
        Change::Install => count >= CLUSTERS_MOST,
        Change::Update | Change::Remove => false,
    }
}

// Checks the refusals 12, 13, 21, 14 and 15 of a change to a version, in this order, by what is staged of the cluster and how many are
// staged.
pub fn staged_refusal(
    staged: Option<Staged>,
    count: usize,
    change: Change,
    version: Version,
) -> Result<(), Refusal>
    ensures { ByVersion staged change version (staged_refusal count) (refused_with result) }
{
    if cluster_present(staged, change) {
        return Err(Refusal::ClusterPresent);
    }
    if cluster_absent(staged, change) {
        return Err(Refusal::ClusterAbsent);
    }
    if cluster_stays(staged, change) {
        return Err(Refusal::Stays);
    }
    if old_version(staged, change, version) {
        return Err(Refusal::OldVersion);
    }
    if table_full(count, change) {
        return Err(Refusal::TableFull);
    }
    Ok(())
}

// Looks up what a table has under a part number. Precondition: the table has at most 64 clusters; `action_refusal` requires the same.
fn staged_in(t: Table, part: u32) -> Option<Staged>
    requires { t.count ≤ clusters_most }
    ensures { result ≡ staged_as (table.find part (view_table t)) }
{
    let Some(i) = find(t, part) else {
        return None;
    };
    let cluster = t.clusters[i];
    Some(Staged {
        version: cluster.version,
        stays: cluster.stays,
    })
}

// Checks the refusals 11 to 15 and 21 of an action on a staged table, in their order. Whether the session's list has the
// cluster is the caller's to say. Precondition: the table has at most 64 clusters; the staged table of a sound state does, and the examples
// compare the count before.
pub fn action_refusal(t: Table, in_list: bool, a: Action) -> Result<(), Refusal>
    requires { t.count ≤ clusters_most }
    ensures refused { ByTouched in_list (view_table t) (view_action a) (refused_with result) }
    ensures number { NumberByTouched in_list (view_table t) (view_action a) (number_or_zero (refused_with result)) }
{
    if in_list {
        return Err(Refusal::ClusterTouched);
    }
    let c = a.cluster;
    let staged = staged_in(t, c.part);
    let change = a.change;
    let version = c.version;
    staged_refusal(staged, t.count, change, version)
}
