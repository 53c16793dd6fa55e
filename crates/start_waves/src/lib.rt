// The start waves, a reading call: "Give the start waves for the running table."
#![tactic(auto)]

ghost use Rattle.std.specs.Prelude.{◌≡◌, true, ◌*◌, ◌≤◌, length};
ghost use Rattle.std.proofs.lemmas.List.Edits.{sets};
ghost use Rattle.clusters.specs.Table.{table_within};
ghost use Rattle.clusters.specs.View.{view_table};
ghost use Rattle.model.specs.Sound.{sound_for};
ghost use Rattle.model.specs.Tables.{running as running_of};
ghost use Rattle.state.specs.View.{view_state};
ghost use Rattle.reading_reply.specs.Reply.{view_report};
ghost use Rattle.start_waves.specs.StartOrder.{start_waves};
ghost use Rattle.start_waves.specs.WavesReport.{numbers_of, waves_report};
ghost use Rattle.start_waves.specs.OnSound.{waves_on_sound};

use crate::rounds::list_waves;
use crate::waits::waits_of;
use clusters::columns::Columns;
use clusters::table::Table;
use reading_reply::ReadingReply;
use refusal::BAD_STATE;
use soundness::sound::sound;
use staging::running;
use state::state::State;

mod rounds;
mod waits;

// Writes the waves of a table at the buffer's start. Precondition: the table is within its limits, and the buffer has room for two numbers
// of each cluster; `report_waves` requires the first and checks the room.
fn write_waves(table: Table, buffer: &mut [u32])
    requires { (table_within (view_table table) ≡ true) × (2 * table.count ≤ length buffer.old) }
    ensures { buffer.new ≡ sets buffer.old 0 (numbers_of (start_waves (view_table table))) }
{
    let columns = Columns::of(table);
    let waits = waits_of(table, &columns.parts);
    list_waves(&columns.parts, &waits.places, columns.count, buffer);
}

// Writes the waves of a table into the lent buffer, if it has the room. Precondition: the table is within its limits; the running table of
// a sound state is.
fn report_waves(table: Table, buffer: &mut [u32]) -> ReadingReply
    requires { table_within (view_table table) ≡ true }
    ensures { view_report result buffer.new ≡ waves_on_sound (view_table table) buffer.old }
{
    let needed = table.count;
    if buffer.len() / 2 < needed {
        return ReadingReply::ShortBuffer(needed);
    }
    write_waves(table, buffer);
    ReadingReply::Given(needed)
}

// Answers the start waves. Precondition: the state is sound; `waves` checks that before.
fn waves_on_sound(s: State, store: &[u8], buffer: &mut [u32]) -> ReadingReply
    requires { sound_for (view_state s) (length store.now) ≡ true }
    ensures { view_report result buffer.new ≡ waves_on_sound (running_of (view_state s)) buffer.old }
{
    let phase = s.phase;
    let session = s.session;
    let table = running(phase, session);
    report_waves(table, buffer)
}

pub fn waves(s: State, store: &[u8], buffer: &mut [u32]) -> ReadingReply
    ensures meaning { view_report result buffer.new ≡ waves_report (view_state s) store.now buffer.old }
{
    if !sound(s, store.len()) {
        return ReadingReply::Refused(BAD_STATE);
    }
    waves_on_sound(s, store, buffer)
}
