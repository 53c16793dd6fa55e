// The search of a byte in a part of a slice.
#![tactic(auto)]

ghost use Rattle.std.specs.Prelude.{◌≡◌, ◌+◌, ◌≤◌, length};
ghost use Rattle.byte_search.specs.Bytes.{index_of, slice};

// Finds the first byte b of s from `from` on and before `to`, and gives `to` where there is none. Precondition: `from` is at most `to`, and
// `to` within s; each caller searches from a place within s to its end.
pub fn find(s: &[u8], from: usize, to: usize, b: u8) -> usize
    requires ordered { from ≤ to }
    requires within { to ≤ length s.now }
    ensures value { result ≡ from + index_of b (slice from to s.now) }
    ensures after_from { from ≤ result }
    ensures up_to { result ≤ to }
{
    match s[from..to].iter().position(|x| *x == b) {
        Some(i) => from + i,
        None => to,
    }
}
