// The refusals 11 to 15 and 21 of the listed actions, in turn.
ghost use Rattle.std.specs.Prelude.{◌≡◌, ◌+◌, ◌≤◌, ◌<◌};
ghost use Rattle.clusters.specs.Cluster.{Cluster as PlainCluster};
ghost use Rattle.clusters.specs.Table.{Table as PlainTable, find, clusters_most};
ghost use Rattle.clusters.specs.Columns.{ColumnsOf};
ghost use Rattle.actions.specs.Staged.{staged_as};
ghost use Rattle.actions.specs.View.{action_of};
ghost use Rattle.state.specs.View.{entries_most};
ghost use Rattle.listed_actions.specs.InTurn.{staged_after, PassesInTurn};

use crate::columns::{entry_columns, is_among};
use actions::action::Change;
use actions::refusals::{Staged, staged_refusal};
use clusters::columns::{Columns, place_of};
use state::limits::ENTRIES_MOST;
use state::session::Entry;

// Looks up what the table with these columns has under a part number.
fn staged_in(columns: &Columns, part: u32) -> Option<Staged>
    ensures { (t : PlainTable) → ColumnsOf columns.now t → result ≡ staged_as (find part t) }
{
    let at = place_of(&columns.parts, columns.count, part)?;
    Some(Staged {
        version: columns.versions[at],
        stays: columns.marks[at],
    })
}

// Counts the staged clusters after a change. Precondition: they are fewer than a table and a list have room for together; `pass_in_turn`
// starts with the number of a table's clusters and adds at most one for each entry.
fn staged_after(change: Change, staged: usize) -> usize
    requires { staged < clusters_most + entries_most }
    ensures { (c : PlainCluster) → result ≡ staged_after (action_of change c) staged }
{
    match change {
        Change::Install => staged + 1,
        Change::Update => staged,
        Change::Remove => staged.saturating_sub(1),
    }
}

// Says whether the first count of the listed actions pass 11 to 15 and 21 in turn on the table that the columns are of, where the table and
// the actions are within their limits. Precondition: the count fits the array; `soundness` requires it.
pub fn pass_in_turn(columns: Columns, entries: [Entry; ENTRIES_MOST], count: usize) -> bool
    requires { count ≤ entries_most }
    ensures { PassesInTurn columns entries count result }
{
    let listed = entry_columns(entries, count);
    let mut staged = columns.count;
    for i in 0..count {
        let action = entries[i].action;
        let cluster = action.cluster;
        if is_among(&listed.parts, i, cluster.part) {
            return false;
        }
        let old = staged_in(&columns, cluster.part);
        if staged_refusal(old, staged, action.change, cluster.version).is_err() {
            return false;
        }
        staged = staged_after(action.change, staged);
    }
    true
}
