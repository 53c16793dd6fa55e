// ClusterInfo: "ClusterInfo writes the running table as text".
#![tactic(auto)]

ghost use Rattle.std.specs.Prelude.{◌≡◌, true, length};
ghost use Rattle.clusters.specs.Table.{table_within};
ghost use Rattle.clusters.specs.View.{view_table};
ghost use Rattle.cluster_list.specs.Write.{write_list};
ghost use Rattle.model.specs.Sound.{sound_for};
ghost use Rattle.model.specs.Reading.{cluster_info};
ghost use Rattle.state.specs.View.{view_state};
ghost use Rattle.reading_reply.specs.Reply.{view_report, report_on_sound};
ghost use Rattle.cluster_info.specs.ClusterInfo.{model_cluster_info};
ghost use Rattle.cluster_info.specs.LoadsBack.{LoadsBack};

use cluster_list_writer::length::list_length;
use cluster_list_writer::write::write_list;
use clusters::table::Table;
use reading_reply::ReadingReply;
use refusal::BAD_STATE;
use soundness::sound::sound;
use staging::running;
use state::state::State;

// Writes a table as a list into the lent buffer, if it has the room. Precondition: the table is within its limits; the running table of a
// sound state is.
fn report_table(table: Table, buffer: &mut [u8]) -> ReadingReply
    requires { table_within (view_table table) ≡ true }
    ensures { view_report result buffer.new ≡ report_on_sound (write_list (view_table table)) buffer.old }
{
    let needed = list_length(table);
    if buffer.len() < needed {
        return ReadingReply::ShortBuffer(needed);
    }
    ReadingReply::Given(write_list(buffer, table))
}

// Answers ClusterInfo. Precondition: the state is sound; `cluster_info` checks that before.
fn cluster_info_on_sound(s: State, store: &[u8], buffer: &mut [u8]) -> ReadingReply
    requires { sound_for (view_state s) (length store.now) ≡ true }
    ensures { view_report result buffer.new ≡ report_on_sound (cluster_info (view_state s)) buffer.old }
{
    report_table(running(s.phase, s.session), buffer)
}

pub fn cluster_info(s: State, store: &[u8], buffer: &mut [u8]) -> ReadingReply
    ensures meaning { view_report result buffer.new ≡ model_cluster_info s store.now buffer.old }
    ensures loads_back { LoadsBack (view_state s) result buffer.new }
{
    if !sound(s, store.len()) {
        return ReadingReply::Refused(BAD_STATE);
    }
    cluster_info_on_sound(s, store, buffer)
}
