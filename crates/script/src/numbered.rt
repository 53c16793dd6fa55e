// Lines of a word and one number.
ghost use Rattle.std.specs.Prelude.{◌≡◌};
ghost use Rattle.script.specs.Line.{within, room_line, processing_line, payload_line, transfer_line};

use crate::limits::{RECORDS_MOST, REPORT_MOST, WAVES_MOST};
use crate::line::ScriptLine;
use request::Request;
use text::word::is_word;

// Gives a line whose number is within its room.
#[tactic(auto, unfolding(crate::specs::Line::within))]
fn line_within(n: u32, most: u32, line: ScriptLine) -> ScriptLine
    ensures { result ≡ within n most line }
{
    if most < n { ScriptLine::Unknown } else { line }
}

// Reads the reports into a room.
#[tactic(auto, unfolding(crate::specs::Line::room_line))]
fn room_line(word: &[u8], n: u32) -> ScriptLine
    ensures { result ≡ room_line word.now n }
{
    if is_word(word, b"packages") {
        line_within(n, RECORDS_MOST, ScriptLine::Packages { room: n })
    } else if is_word(word, b"clusters") {
        line_within(n, REPORT_MOST, ScriptLine::Clusters { room: n })
    } else if is_word(word, b"changes") {
        line_within(n, REPORT_MOST, ScriptLine::Changes { room: n })
    } else if is_word(word, b"waves") {
        line_within(n, WAVES_MOST, ScriptLine::Waves { room: n })
    } else {
        ScriptLine::Unknown
    }
}

// Reads the calls on a package in processing, or one of the lines above.
#[tactic(auto, unfolding(crate::specs::Line::processing_line))]
fn processing_line(word: &[u8], n: u32) -> ScriptLine
    ensures { result ≡ processing_line word.now n }
{
    if is_word(word, b"process") {
        ScriptLine::Call(Request::Process(n))
    } else if is_word(word, b"work") {
        ScriptLine::Call(Request::Work(n))
    } else if is_word(word, b"cancel") {
        ScriptLine::Call(Request::Cancel(n))
    } else {
        room_line(word, n)
    }
}

// Reads Payload and `payload_check`, or one of the lines above.
#[tactic(auto, unfolding(crate::specs::Line::payload_line))]
fn payload_line(word: &[u8], n: u32) -> ScriptLine
    ensures { result ≡ payload_line word.now n }
{
    if is_word(word, b"payload") {
        ScriptLine::Payload { id: n }
    } else if is_word(word, b"check") {
        ScriptLine::Check { id: n }
    } else {
        processing_line(word, n)
    }
}

// Reads the transfer calls but TransferData, or one of the lines above.
#[tactic(auto, unfolding(crate::specs::Line::transfer_line))]
pub fn transfer_line(word: &[u8], n: u32) -> ScriptLine
    ensures { result ≡ transfer_line word.now n }
{
    if is_word(word, b"start") {
        ScriptLine::Call(Request::TransferStart(n))
    } else if is_word(word, b"exit") {
        ScriptLine::Call(Request::TransferExit(n))
    } else if is_word(word, b"delete") {
        ScriptLine::Call(Request::DeleteTransfer(n))
    } else {
        payload_line(word, n)
    }
}
