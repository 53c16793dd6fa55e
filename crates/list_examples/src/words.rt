// The words of a list of calls, as a field of a case says them: decimal numbers parted by blanks.
ghost use Rattle.std.specs.Prelude.{◌≡◌, ◌≤◌, length};

use cases::case::without_end;
use cases::values::number_of;

// Puts the words of a text into the slice, as many as have room, and returns how many.
pub fn put_words(words: &mut [u32], text: &[u8]) -> usize
    ensures { (result ≤ length words.old) × (length words.new ≡ length words.old) }
{
    let mut count = 0;
    for word in text.split_inclusive(|b| *b == b' ') {
        if count < words.len() {
            words[count] = number_of(without_end(word, b' '));
            count += 1;
        }
    }
    count
}
