// The transfer ids and part numbers of a session's list, taken out once: a search passes a column and not the entries.
ghost use Rattle.std.specs.Prelude.{◌≡◌, ◌≤◌, length, take};
ghost use Rattle.state.specs.View.{entries_most};
ghost use Rattle.listed_actions.specs.Listed.{is_among, EntryColumnsOf};

use state::limits::ENTRIES_MOST;
use state::session::Entry;

// The first places of each column count, as many as the list has entries; the places behind them are unused.
#[derive(Clone, Copy)]
pub struct EntryColumns {
    pub ids: [u32; ENTRIES_MOST],
    pub parts: [u32; ENTRIES_MOST],
}

// Takes the columns out of the entries that count. Precondition: the count is at most 16; a sound state meets it, and `soundness` checks it
// first.
pub fn entry_columns(entries: [Entry; ENTRIES_MOST], count: usize) -> EntryColumns
    requires { count ≤ entries_most }
    ensures { EntryColumnsOf result (take count entries) count }
{
    let mut ids = [0u32; ENTRIES_MOST];
    let mut parts = [0u32; ENTRIES_MOST];
    for i in 0..count {
        let entry = entries[i];
        ids[i] = entry.id;
        parts[i] = entry.action.cluster.part;
    }
    EntryColumns { ids, parts }
}

// Says whether a number is among the first of a column. Precondition: the count is at most 16 and the column has 16 places; its callers
// pass a column of `EntryColumns` and at most the number of entries.
pub fn is_among(numbers: &[u32; ENTRIES_MOST], count: usize, number: u32) -> bool
    requires { (count ≤ entries_most) × (length numbers.now ≡ entries_most) }
    ensures { result ≡ is_among number (take count numbers.now) }
{
    numbers[..count].contains(&number)
}
