// The beginning table and the listed actions.
ghost use Rattle.std.specs.Prelude.{◌≡◌, true, ◌≤◌};
ghost use Rattle.clusters.specs.Table.{table_within};
ghost use Rattle.clusters.specs.View.{view_table};
ghost use Rattle.actions.specs.Action.{action_within, actions_within};
ghost use Rattle.actions.specs.View.{view_action};
ghost use Rattle.state.specs.View.{entries_most};
ghost use Rattle.listed_actions.specs.Listed.{listed_actions};
ghost use Rattle.soundness.specs.Parts.{actions_sound_on};

use actions::action::{Action, Change};
use clusters::columns::Columns;
use clusters::table::Table;
use clusters::within::{cluster_within, part_within};
use listed_actions::in_turn::pass_in_turn;
use state::limits::ENTRIES_MOST;
use state::session::Entry;

// Says whether an action is within its limits. Of a remove only the part number counts.
fn action_within(action: Action) -> bool
    ensures { result ≡ action_within (view_action action) }
{
    match action.change {
        Change::Install | Change::Update => cluster_within(action.cluster),
        Change::Remove => part_within(action.cluster.part),
    }
}

// Says whether each listed action is within its limits. Precondition: the count is at most 16; `actions_sound` requires it too.
fn actions_within(entries: [Entry; ENTRIES_MOST], count: usize) -> bool
    requires { count ≤ entries_most }
    ensures { result ≡ actions_within (listed_actions entries count) }
{
    for i in 0..count {
        if !action_within(entries[i].action) {
            return false;
        }
    }
    true
}

// Says whether the first count of the listed actions are within their limits and pass 11 to 15 and 21 in turn on the beginning table.
// Precondition: the table is within its limits and the count is at most 16; `session_and_kept_sound` has checked the one and requires the
// room for the other.
pub fn actions_sound(beginning: Table, entries: [Entry; ENTRIES_MOST], count: usize) -> bool
    requires { (table_within (view_table beginning) ≡ true) × (count ≤ entries_most) }
    ensures { result ≡ actions_sound_on (view_table beginning) (listed_actions entries count) }
{
    if !actions_within(entries, count) {
        return false;
    }
    let columns = Columns::of(beginning);
    pass_in_turn(columns, entries, count)
}
