// States with a mark set by hand, by a number: in the first cluster of the beginning table, in the action that is listed first, or in
// the action that is kept. Where the session removes that cluster, or is about to, a state with the first is not sound. The mark of an
// action's own cluster plays no part.
use actions::action::Action;
use clusters::cluster::with_mark;
use clusters::table::Table;
use state::session::Session;
use state::state::State;

fn marked_table(table: Table) -> Table {
    let mut t = table;
    t.clusters[0] = with_mark(t.clusters[0], true);
    t
}

fn marked_action(action: Action) -> Action {
    Action {
        cluster: with_mark(action.cluster, true),
        ..action
    }
}

fn marked_session(session: Session, place: u32) -> Session {
    let mut e = session;
    match place {
        0 => e.beginning = marked_table(e.beginning),
        1 => e.entries[0].action = marked_action(e.entries[0].action),
        _ => {}
    }
    e
}

// Sets the mark at a place of a state: the table's 0, the listed action's 1, the kept action's any other.
pub fn marked(s: State, place: u32) -> State {
    let mut v = s;
    match place {
        0 | 1 => v.session = marked_session(v.session, place),
        _ => v.work.action = marked_action(v.work.action),
    }
    v
}
