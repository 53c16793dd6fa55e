// A call in numbers: a row of six words, and a block in a byte string that is lent beside the rows.
ghost use Rattle.std.specs.Prelude.{◌≡◌, ◌+◌, ◌≤◌, length, get_or};
ghost use Rattle.std.proofs.Math.Option.{none};
ghost use Rattle.call_rows.specs.Row.{row_at, block_of, request_in, has_one_number, requests_by_number, requested, request_within};

use four_state::call::OldCall;
use request::Request;

// The number of the call, a word that is 0 and kept for later use, the call's two numbers, and the start and length of its block.
#[derive(Clone, Copy)]
pub struct Row {
    pub call: u32,
    pub reserved: u32,
    pub first: u32,
    pub second: u32,
    pub start: u32,
    pub length: u32,
}

// A call of the twelve, whose block lies in the byte string, or one of the old four.
#[derive(Clone, Copy, Drop)]
pub enum MixedRequest {
    Twelve(Request),
    Old(OldCall),
}

// The words in the order of the fields.
impl From<[u32; 6]> for Row {
    ghost from_gives = { λ words row. row ≡ row_at words 0 };

    fn from(words: [u32; 6]) -> Row {
        let [call, reserved, first, second, start, length] = words;
        Row {
            call,
            reserved,
            first,
            second,
            start,
            length,
        }
    }
}

// Returns true if a row has no second number and no block.
fn has_one_number(row: Row) -> bool
    ensures { result ≡ has_one_number row }
{
    (row.second == 0) & ((row.start == 0) & (row.length == 0))
}

// Returns the request of a row by its number. Precondition: the number is above those of the twelve; `request_of` calls it for no other.
fn old_request(row: Row) -> Option<MixedRequest>
    requires { 12 ≤ row.call }
    ensures { request_in result ≡ get_or (requests_by_number row) row.call none }
{
    let one_number = has_one_number(row);
    let no_number = (row.first == 0) & one_number;
    match row.call {
        12 => no_number.then_some(MixedRequest::Old(OldCall::Activate)),
        13 => one_number.then_some(MixedRequest::Old(OldCall::Cancel(row.first))),
        14 => no_number.then_some(MixedRequest::Old(OldCall::Revert)),
        15 => no_number.then_some(MixedRequest::Old(OldCall::Rollback)),
        _ => None,
    }
}

// Returns the request that the words of a row say, wherever its block lies.
fn request_of(row: Row) -> Option<MixedRequest>
    ensures { request_in result ≡ requested row }
{
    if row.reserved != 0 {
        return None;
    }
    let first = row.first;
    let one_number = has_one_number(row);
    let no_number = (first == 0) & one_number;
    let says_report = (first <= 1) & one_number;
    match row.call {
        0 => one_number.then_some(MixedRequest::Twelve(Request::TransferStart(first))),
        1 => Some(MixedRequest::Twelve(Request::TransferData(first, row.second))),
        2 => one_number.then_some(MixedRequest::Twelve(Request::TransferExit(first))),
        3 => one_number.then_some(MixedRequest::Twelve(Request::DeleteTransfer(first))),
        4 => one_number.then_some(MixedRequest::Twelve(Request::Process(first))),
        5 => one_number.then_some(MixedRequest::Twelve(Request::Work(first))),
        6 => one_number.then_some(MixedRequest::Twelve(Request::Cancel(first))),
        7 => no_number.then_some(MixedRequest::Twelve(Request::Revert)),
        8 => no_number.then_some(MixedRequest::Twelve(Request::Activate)),
        9 => no_number.then_some(MixedRequest::Twelve(Request::Rollback)),
        10 => no_number.then_some(MixedRequest::Twelve(Request::Finish)),
        11 => says_report.then_some(MixedRequest::Twelve(Request::Report(first == 1))),
        _ => old_request(row),
    }
}

// Returns the request of a row whose block lies within a byte string of a length.
#[tactic(auto, using(std::proofs::lemmas::Bool::Decides::nat_tests), unfolding(crate::specs::Row::request_within))]
pub fn row_request(row: Row, room: usize) -> Option<MixedRequest>
    ensures { request_in result ≡ request_within row room }
{
    if row.start as u64 + row.length as u64 > room as u64 {
        return None;
    }
    request_of(row)
}

// Returns the block of a row: the part of the byte string itself. Precondition: the block lies within the byte string; a row that has a
// request meets it.
pub fn row_block(row: Row, bytes: &[u8]) -> &[u8]
    requires { row.start + row.length ≤ length bytes.now }
    ensures { result.now ≡ block_of row bytes.now }
{
    let start = row.start as usize;
    &bytes[start..start + row.length as usize]
}
