// What is printed of an input.
ghost use Rattle.std.specs.Prelude.{◌≤◌, ◌<◌, length};
ghost use Rattle.io.specs.Counts.{IsPrefixLen};
ghost use Rattle.text.specs.Put.{Put};
ghost use Rattle.cluster_list.specs.Read.{read_list_most};
ghost use Rattle.cluster_list.specs.Write.{written_list_most};
ghost use Rattle.model.specs.State.{State};
ghost use Rattle.clist.specs.Answer.{answer_to, AnswersAll};

use cluster_info::cluster_info;
use clusters::table::empty_table;
use load::load;
use reading_reply::ReadingReply;
use state::answer::Answer;
use state::state::loaded_state;
use text::write::put_bytes;

// The first transfer id.
const FIRST_ID: u32 = 1;

// Puts what is printed of a whole input at the start of a buffer. Load is lent a store of no bytes, because nothing is transferred, and
// handed a state that plays no part. A loaded state is sound and the buffer has room, so ClusterInfo is not refused. Precondition: the
// buffer has room for the longest list; `put_answer_to_read` requires it.
fn put_answer(input: &[u8], buf: &mut [u8]) -> usize
    requires { written_list_most ≤ length buf.old }
    ensures { (given : State) → Put buf.old 0 (answer_to given input.now) result buf.new }
{
    let mut store = [0u8; 0];
    let given = loaded_state(empty_table(), FIRST_ID);
    let loaded = load(given, input, FIRST_ID, &mut store);
    let answer = loaded.answer;
    let Answer::Done = answer else {
        return put_bytes(buf, 0, b"refused 20\n");
    };
    let report = cluster_info(loaded.state, &store, buf);
    let ReadingReply::Given(written) = report else {
        return 0;
    };
    written
}

// Puts what is printed of every input of which `count` bytes were read into a buffer: all, or as many as it has. It has more than a list
// can have, so an input that does not fit it is refused whatever follows. Precondition: the first buffer has more bytes than a list can
// have and `count` of them, the second has room for the longest list; `main` lends such buffers, and `read_parts` gives the count.
pub fn put_answer_to_read(read: &[u8], count: usize, buf: &mut [u8]) -> usize
    requires { (read_list_most < length read.now) × IsPrefixLen count read.now × (written_list_most ≤ length buf.old) }
    ensures answer { AnswersAll read.now count buf.old result buf.new }
    ensures inside { IsPrefixLen result buf.new }
{
    put_answer(&read[..count], buf)
}
