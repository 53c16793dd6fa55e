// What a package does to a table.
ghost use Rattle.std.specs.Prelude.{◌≡◌};
ghost use Rattle.actions.specs.Exact.{apply};
ghost use Rattle.actions.specs.Struct.{cleared_action};

use crate::place::{insert, replace, take_out};
use clusters::cluster::{Cluster, new_cluster, with_mark};
use clusters::table::{CLUSTERS_MOST, Table};
use text::version::NO_VERSION;

#[derive(Clone, Copy, PartialEq, Eq)]
pub enum Change {
    Install,
    Update,
    Remove,
}

// Of a remove only the cluster's part number counts; its version and needs are unused places. The mark of the cluster is an unused
// place of every action.
#[derive(Clone, Copy)]
pub struct Action {
    pub change: Change,
    pub cluster: Cluster,
}

// Makes an action with every number 0 and no needs.
pub fn cleared_action() -> Action
    ensures { result ≡ cleared_action }
{
    let cluster = new_cluster(0, NO_VERSION);
    Action {
        change: Change::Install,
        cluster: cluster,
    }
}

// Applies an action to a table. A table whose count does not fit is left as it is, and so is a full one by an install.
pub fn apply(t: Table, a: Action) -> Table
    ensures { result ≡ apply a t }
{
    let count = t.count;
    if count > CLUSTERS_MOST {
        return t;
    }
    let change = a.change;
    let c = a.cluster;
    match change {
        Change::Install => {
            if count >= CLUSTERS_MOST {
                return t;
            }
            insert(t, with_mark(c, false))
        }
        Change::Update => replace(t, c),
        Change::Remove => take_out(t, c.part),
    }
}
