// Words: names and action words, compared as fixed byte strings.
ghost use Rattle.std.specs.Prelude.{◌≡◌};
ghost use Rattle.text.specs.Word.{same_bytes};

// Says whether a text is exactly the given word.
pub fn is_word(s: &[u8], word: &[u8]) -> bool
    ensures { result ≡ same_bytes s.now word.now }
{
    check::same(s, word)
}
