// The kinds of cases, by their sentences.
ghost use Rattle.std.specs.Prelude.{◌≡◌, Some};
ghost use Rattle.call_examples.specs.Kinds.{kind_sentence};

// What a case does: a call, or what is shown of the state, or each of the twelve calls on a changed state.
#[derive(Clone, Copy)]
pub enum Kind {
    Call(Call),
    Payload,
    Store,
    Unsound,
    Marked,
}

#[derive(Clone, Copy)]
pub enum Call {
    Load,
    Start,
    Data,
    Exit,
    Delete,
    Session(SessionCall),
    Old(OldCall),
}

// A call that is neither Load nor a transfer call; Report with each of its words.
#[derive(Clone, Copy)]
pub enum SessionCall {
    Process,
    Work,
    Cancel,
    Revert,
    Activate,
    Rollback,
    Finish,
    ReportGood,
    ReportBad,
}

// Each of the old four.
#[derive(Clone, Copy)]
pub enum OldCall {
    Activate,
    Cancel,
    Revert,
    Rollback,
}

// The twelve calls in the order of the sentences; Report is made with both words.
pub const TWELVE: [Call; 13] = [
    Call::Start,
    Call::Data,
    Call::Exit,
    Call::Delete,
    Call::Session(SessionCall::Process),
    Call::Session(SessionCall::Work),
    Call::Session(SessionCall::Cancel),
    Call::Session(SessionCall::Revert),
    Call::Session(SessionCall::Activate),
    Call::Session(SessionCall::Rollback),
    Call::Session(SessionCall::Finish),
    Call::Session(SessionCall::ReportGood),
    Call::Session(SessionCall::ReportBad),
];

// Returns the kind of a case with a sentence.
pub fn kind_of(sentence: &[u8]) -> Option<Kind>
    ensures { (kind : Kind) → sentence.now ≡ kind_sentence kind → result ≡ Some kind }
{
    Some(match sentence {
        b"payload %:" => Kind::Payload,
        b"store:" => Kind::Store,
        b"unsound, %:" => Kind::Unsound,
        b"mark set in the %:" => Kind::Marked,
        b"load, first id %:" => Kind::Call(Call::Load),
        b"start %:" => Kind::Call(Call::Start),
        b"data % %:" => Kind::Call(Call::Data),
        b"exit %:" => Kind::Call(Call::Exit),
        b"delete %:" => Kind::Call(Call::Delete),
        b"process %:" => Kind::Call(Call::Session(SessionCall::Process)),
        b"work %:" => Kind::Call(Call::Session(SessionCall::Work)),
        b"cancel %:" => Kind::Call(Call::Session(SessionCall::Cancel)),
        b"revert:" => Kind::Call(Call::Session(SessionCall::Revert)),
        b"activate:" => Kind::Call(Call::Session(SessionCall::Activate)),
        b"rollback:" => Kind::Call(Call::Session(SessionCall::Rollback)),
        b"finish:" => Kind::Call(Call::Session(SessionCall::Finish)),
        b"report good:" => Kind::Call(Call::Session(SessionCall::ReportGood)),
        b"report bad:" => Kind::Call(Call::Session(SessionCall::ReportBad)),
        b"old activate:" => Kind::Call(Call::Old(OldCall::Activate)),
        b"old cancel %:" => Kind::Call(Call::Old(OldCall::Cancel)),
        b"old revert:" => Kind::Call(Call::Old(OldCall::Revert)),
        b"old rollback:" => Kind::Call(Call::Old(OldCall::Rollback)),
        _ => return None,
    })
}
