// A case begins with `#` and has fields that each end in `;`. The first is a sentence, which is printed with a further field for each
// `%` and says of which kind the case is; the answer is printed behind it. A field has any bytes but `#` and `;`, LF among them.
ghost use Rattle.std.specs.Prelude.{◌≡◌};
ghost use Rattle.std.specs.Io.BufRead.{strip_last};

// Returns field number k of a case, counted from 0; no bytes where there is none.
pub fn field(case: &[u8], k: usize) -> &[u8] {
    case.split(|b| *b == b';').nth(k).unwrap_or(&case[..0])
}

// Returns a part that `split_inclusive` gave, without the byte that ends it.
pub fn without_end(part: &[u8], end: u8) -> &[u8]
    ensures { result.now ≡ strip_last end part.now }
{
    match part.split_last() {
        Some((last, rest)) if *last == end => rest,
        _ => part,
    }
}
