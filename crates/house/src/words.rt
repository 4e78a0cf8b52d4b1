// The words of a line.
ghost use Rattle.std.specs.Prelude.{◌≡◌, ◌+◌, ◌≤◌, [], ◌∷◌, length, take, drop, IfSome, MatchOption};
ghost use Rattle.std.specs.Iterator.{YieldsFirstRef, item_count};
ghost use Rattle.house.specs.Words.{after, before, words as words_of};

// How many bytes stand before the first byte `end`.
pub(crate) fn size_before(text: &[u8], end: u8) -> usize
    ensures front { take result text.now ≡ before end text.now }
    ensures back { drop (result + 1) text.now ≡ after end text.now }
    ensures within { result ≤ length text.now }
{
    text.iter().position(|c| *c == end).unwrap_or(text.len())
}

// The text without the spaces in front.
fn skip_spaces(text: &[u8]) -> &[u8]
    ensures same { words_of result.now ≡ words_of text.now }
    ensures word { before 0x20 result.now ≡ [] → result.now ≡ [] }
    ensures within { length result.now ≤ length text.now }
{
    let spaces = text.iter().position(|c| *c != b' ').unwrap_or(text.len());
    &text[spaces..]
}

// The first word of a text, and the text behind it.
fn split_first_word(text: &[u8]) -> Option<(&[u8], &[u8])>
    ensures parts { MatchOption result (words_of text.now ≡ []) (λ parts. words_of text.now ≡ parts.0.now ∷ words_of parts.1.now) }
    ensures shorter { IfSome result (λ parts. length parts.0.now + length parts.1.now ≤ length text.now) }
{
    let text = skip_spaces(text);
    let (word, rest) = text.split_at(size_before(text, b' '));
    (!word.is_empty()).then_some((word, rest))
}

// The words of a text, from the first to the last.
#[derive(Clone, Copy)]
pub(crate) struct Words<'a> {
    pub(crate) text: &'a [u8],
}

impl<'a> Iterator for Words<'a> {
    type Item = &'a [u8];

    ghost next_gives = { YieldsFirstRef (λ s. words_of s.text.now) };

    ghost remaining = { item_count (λ s. words_of s.text.now) };

    fn next(&mut self) -> Option<&'a [u8]> {
        let (word, rest) = split_first_word(self.text)?;
        self.text = rest;
        Some(word)
    }
}
