// A line of the script.
ghost use Rattle.std.specs.Prelude.{◌≡◌, ◌≤◌, length};
ghost use Rattle.script.specs.Line.{load_line, data_line, poke_line, short_line, command_line, script_line_at};

use crate::fixed::session_line;
use crate::limits::{NUMBER_MOST, STORE_MOST};
use crate::numbered::transfer_line;
use crate::old::old_line;
use crate::place::{Place, last_block};
use crate::words::{last_number, number_word, word_end};
use four_state::call::OldCall;
use request::Request;
use text::cursor::Cursor;
use text::word::is_word;

// A call with its numbers and the place of its bytes, one of the lines that are no call, or none of them.
#[derive(Clone, Copy)]
pub enum ScriptLine {
    Load { first: u32, store: u32, list: Place },
    Data { id: u32, counter: u32, block: Place },
    // a call of the twelve but TransferData
    Call(Request),
    // one of the four old calls
    Old(OldCall),
    OldStatus,
    Packages { room: u32 },
    Clusters { room: u32 },
    Changes { room: u32 },
    Waves { room: u32 },
    Payload { id: u32 },
    Check { id: u32 },
    Progress,
    State,
    Store,
    Poke { at: u32, bytes: Place },
    Remark,
    Unknown,
}

// Reads the words behind `load`.
#[tactic(auto, unfolding(crate::specs::Line::load_line))]
fn read_load_line(s: &[u8], cursor: Cursor) -> ScriptLine
    ensures { result ≡ load_line s.now cursor.at }
{
    let Some((first, behind_first)) = number_word(s, cursor, NUMBER_MOST) else {
        return ScriptLine::Unknown;
    };
    let Some((store, behind_store)) = number_word(s, behind_first, STORE_MOST) else {
        return ScriptLine::Unknown;
    };
    let Some(list) = last_block(s, behind_store) else {
        return ScriptLine::Unknown;
    };
    ScriptLine::Load { first, store, list }
}

// Reads the words behind `data`.
#[tactic(auto, unfolding(crate::specs::Line::data_line))]
fn read_data_line(s: &[u8], cursor: Cursor) -> ScriptLine
    ensures { result ≡ data_line s.now cursor.at }
{
    let Some((id, behind_id)) = number_word(s, cursor, NUMBER_MOST) else {
        return ScriptLine::Unknown;
    };
    let Some((counter, behind_counter)) = number_word(s, behind_id, NUMBER_MOST) else {
        return ScriptLine::Unknown;
    };
    let Some(block) = last_block(s, behind_counter) else {
        return ScriptLine::Unknown;
    };
    ScriptLine::Data { id, counter, block }
}

// Reads the words behind `poke`.
#[tactic(auto, unfolding(crate::specs::Line::poke_line))]
fn read_poke_line(s: &[u8], cursor: Cursor) -> ScriptLine
    ensures { result ≡ poke_line s.now cursor.at }
{
    let Some((at, behind_at)) = number_word(s, cursor, NUMBER_MOST) else {
        return ScriptLine::Unknown;
    };
    let Some(bytes) = last_block(s, behind_at) else {
        return ScriptLine::Unknown;
    };
    ScriptLine::Poke { at, bytes }
}

// Reads a line of one number, or of fixed words, with its first word and the cursor behind that. Precondition: the line begins within the
// text; `command_line` requires it.
#[tactic(auto, unfolding(crate::specs::Line::short_line))]
fn short_line(s: &[u8], from: usize, word: &[u8], next: Cursor) -> ScriptLine
    requires { from ≤ length s.now }
    ensures { result ≡ short_line s.now from word.now next.at }
{
    let Some((n, _)) = last_number(s, next, NUMBER_MOST) else {
        return session_line(&s[from..]);
    };
    transfer_line(word, n)
}

// Reads a line that is no remark, with its first word and the cursor behind that. Precondition: the line begins within the text;
// `script_line_at` has tested it.
#[tactic(auto, unfolding(crate::specs::Line::command_line))]
fn command_line(s: &[u8], from: usize, word: &[u8], next: Cursor) -> ScriptLine
    requires { from ≤ length s.now }
    ensures { result ≡ command_line s.now from word.now next.at }
{
    if is_word(word, b"load") {
        read_load_line(s, next)
    } else if is_word(word, b"data") {
        read_data_line(s, next)
    } else if is_word(word, b"poke") {
        read_poke_line(s, next)
    } else if is_word(word, b"old") {
        old_line(s, next)
    } else {
        short_line(s, from, word, next)
    }
}

// Reads the line at a cursor, up to the end of the text.
pub fn script_line_at(s: &[u8], cursor: Cursor) -> ScriptLine
    ensures { result ≡ script_line_at s.now cursor.at }
{
    let from = cursor.at;
    if s.len() <= from {
        return ScriptLine::Unknown;
    }
    if s[from] == b'#' {
        return ScriptLine::Remark;
    }
    let end = word_end(s, from);
    command_line(s, from, &s[from..end], Cursor { at: end + 1 })
}
