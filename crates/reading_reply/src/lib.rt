// What the reading calls answer: a refusal, by its number alone; a refusal for a buffer that is too short, with the length needed; else
// the number that the call gives, of records or bytes, or the progress.
#![tactic(auto)]

#[derive(Clone, Copy)]
pub enum ReadingReply {
    Refused(u32),
    ShortBuffer(usize),
    Given(usize),
}
