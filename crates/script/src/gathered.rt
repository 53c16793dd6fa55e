// Lines gathered from the input, which comes in parts.
ghost use Rattle.std.specs.Prelude.{◌≡◌};
ghost use Rattle.script.specs.Gathered.{nothing_gathered, line_so_far, gathered_with};

use text::write::put_bytes;

// How many bytes of the line that is being gathered stand in its buffer, and whether it is too long for that.
#[derive(Clone, Copy)]
pub struct Gathered {
    pub count: usize,
    pub is_too_long: bool,
}

pub fn nothing_gathered() -> Gathered
    ensures { result ≡ nothing_gathered }
{
    Gathered {
        count: 0,
        is_too_long: false,
    }
}

// Puts a part of the input behind what is gathered, where there is room.
pub fn gather(line: &mut [u8], gathered: Gathered, part: &[u8]) -> Gathered
    ensures { line_so_far result line.new ≡ gathered_with gathered line.old part.now }
{
    let count = gathered.count;
    if gathered.is_too_long {
        return gathered;
    }
    if line.len() < count {
        return gathered;
    }
    if line.len() - count < part.len() {
        return Gathered {
            count,
            is_too_long: true,
        };
    }
    let end = put_bytes(line, count, part);
    Gathered {
        count: end,
        is_too_long: false,
    }
}
