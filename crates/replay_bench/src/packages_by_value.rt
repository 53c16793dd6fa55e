// Packages into a list of the bench's own, which comes back by value.
ghost use Rattle.std.specs.Prelude.{◌≡◌, replicate};
ghost use Rattle.model.specs.Reading.{report_buffer};
ghost use Rattle.state.specs.View.{view_state};
ghost use Rattle.reading_reply.specs.Reply.{reply_of};
ghost use Rattle.packages_report.specs.Records.{cleared_record};
ghost use Rattle.packages_report.specs.Packages.{listed, packages_reply};
ghost use Rattle.script.specs.Limits.{records_most};
ghost use Rattle.script_calls.specs.Line.{lent_count};

use packages_report::{Record, cleared_record, packages};
use reading_reply::ReadingReply;
use script::limits::RECORDS_MOST;
use script_calls::lent::lent;
use state::state::State;

// The room of the list: as many records as a line may ask for.
pub const LIST_MOST: usize = RECORDS_MOST as usize;

// The answer, and the list as Packages leaves it; it was cleared before.
#[derive(Clone, Copy)]
pub struct PackagesByValue {
    pub answer: ReadingReply,
    pub list: [Record; LIST_MOST],
}

// Returns the list before it is lent.
fn cleared_list() -> [Record; LIST_MOST]
    ensures { result ≡ replicate records_most cleared_record }
{
    [cleared_record(); LIST_MOST]
}

// Returns how much of the list is lent.
fn room_within(room: usize) -> usize
    ensures { result ≡ lent_count room records_most }
{
    lent(room, LIST_MOST)
}

// Makes Packages into the first places of the list, so many as room says, and at most all.
pub fn packages_by_value(s: State, store: &[u8], room: usize) -> PackagesByValue
    ensures answer { reply_of result.answer ≡ packages_reply (view_state s) store.now (lent_count room records_most) }
    ensures list { result.list ≡ report_buffer (reply_of result.answer) (listed s) (replicate records_most cleared_record) }
{
    let mut list = cleared_list();
    let count = room_within(room);
    let answer = packages(s, store, &mut list[..count]);
    PackagesByValue { answer, list }
}
