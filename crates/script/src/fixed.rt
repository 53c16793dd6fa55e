// Lines of fixed words.
ghost use Rattle.std.specs.Prelude.{◌≡◌};
ghost use Rattle.script.specs.Line.{session_line, report_line, show_line};

use crate::line::ScriptLine;
use request::Request;
use text::word::is_word;

// Reads Progress and the lines that show the manager's state and the store.
#[tactic(auto, unfolding(crate::specs::Line::show_line))]
fn show_line(s: &[u8]) -> ScriptLine
    ensures { result ≡ show_line s.now }
{
    if is_word(s, b"progress") {
        ScriptLine::Progress
    } else if is_word(s, b"state") {
        ScriptLine::State
    } else if is_word(s, b"store") {
        ScriptLine::Store
    } else {
        ScriptLine::Unknown
    }
}

// Reads Report, or one of the lines above.
#[tactic(auto, unfolding(crate::specs::Line::report_line))]
fn report_line(s: &[u8]) -> ScriptLine
    ensures { result ≡ report_line s.now }
{
    if is_word(s, b"report good") {
        ScriptLine::Call(Request::Report(true))
    } else if is_word(s, b"report bad") {
        ScriptLine::Call(Request::Report(false))
    } else {
        show_line(s)
    }
}

// Reads Revert, Activate, Rollback and Finish, or one of the lines above.
#[tactic(auto, unfolding(crate::specs::Line::session_line))]
pub fn session_line(s: &[u8]) -> ScriptLine
    ensures { result ≡ session_line s.now }
{
    if is_word(s, b"revert") {
        ScriptLine::Call(Request::Revert)
    } else if is_word(s, b"activate") {
        ScriptLine::Call(Request::Activate)
    } else if is_word(s, b"rollback") {
        ScriptLine::Call(Request::Rollback)
    } else if is_word(s, b"finish") {
        ScriptLine::Call(Request::Finish)
    } else {
        report_line(s)
    }
}
