// Packages: "Packages fills a lent list of records (id, size, received, state) in id order."
#![tactic(auto)]

mod records;

ghost use Rattle.std.specs.Prelude.{◌≡◌, ◌≤◌};
ghost use Rattle.model.specs.Reading.{report_buffer};
ghost use Rattle.model.specs.Sound.{packages_most};
ghost use Rattle.reading_reply.specs.Reply.{reply_of, view_report, report_on_sound};
ghost use Rattle.packages_report.specs.Records.{cleared_record, recorded};
ghost use Rattle.packages_report.specs.Packages.{listed, packages_given, model_packages};

use crate::records::record_of;
use reading_reply::ReadingReply;
use refusal::BAD_STATE;
use soundness::sound::sound;
use state::state::State;
use state::transfers::Transfers;

#[derive(Clone, Copy)]
pub struct Record {
    pub id: u32,
    pub size: u32,
    pub received: u32,
    pub state: u32,
}

// Makes the record of an unused place: every number 0.
pub fn cleared_record() -> Record
    ensures { result ≡ cleared_record }
{
    Record {
        id: 0,
        size: 0,
        received: 0,
        state: 0,
    }
}

// Writes the records of all packages into the first places of a lent list, if it has the room; those behind them keep their values.
// Precondition: there are at most 16 packages; `packages` checks before that the state is sound.
fn report_records(t: Transfers, list: &mut [Record]) -> ReadingReply
    requires { t.count ≤ packages_most }
    ensures { view_report result list.new ≡ report_on_sound (recorded t) list.old }
{
    if list.len() < t.count {
        return ReadingReply::ShortBuffer(t.count);
    }
    for i in 0..t.count {
        list[i] = record_of(t.packages[i]);
    }
    ReadingReply::Given(t.count)
}

// Packages: writes the records of all packages into the first places of a lent list, where they fit. A refusal writes nothing.
pub fn packages(s: State, store: &[u8], list: &mut [Record]) -> ReadingReply
    ensures meaning { packages_given result list.new ≡ model_packages s store.now list.old }
    ensures exact { list.new ≡ report_buffer (reply_of result) (listed s) list.old }
{
    if !sound(s, store.len()) {
        return ReadingReply::Refused(BAD_STATE);
    }
    report_records(s.transfers, list)
}
