ghost use Rattle.std.specs.Prelude.{◌↔◌, ◌≡◌, ◌≢◌, ℕ, List, ◌≤◌, ◌<◌, length, not, position};
ghost use Rattle.std.specs.Prelude.{IfSome, IsTrue, MatchOption, []};
ghost use Rattle.std.specs.Char.{is_ascii_digit};
ghost use Rattle.std.specs.List.{list_all};
ghost use Rattle.std.specs.Str.Parse.{IsNumeral};
ghost use Rattle.script.specs.Words.{is_blank as blank, end_of_word, start_of_word, first_word};
ghost use Rattle.script.specs.Words.{after_word, without_blanks as bare, IsText, Only, Numeral};
ghost use Rattle.script.specs.Words.{OnlyNumeral, Parses};

// Words are parted by spaces and tabs.
fn is_blank(b: u8) -> bool
    ensures { result ≡ blank b }
{
    b == b' ' || b == b'\t'
}

// The first word of a text, and what follows it and the blanks after it.
pub(crate) fn split_word(text: &[u8]) -> (&[u8], &[u8])
    ensures word { result.0.now ≡ first_word text.now }
    ensures rest { result.1.now ≡ after_word text.now }
{
    let (word, rest) = text.split_at(word_end(text));
    (word, without_blanks(rest))
}

// A text without the blanks that it begins with.
pub(crate) fn without_blanks(text: &[u8]) -> &[u8]
    ensures { result.now ≡ bare text.now }
{
    text.split_at(word_start(text)).1
}

fn word_end(text: &[u8]) -> usize
    ensures end { result ≡ end_of_word text.now }
    ensures inside { result ≤ length text.now }
{
    first_blank(text).unwrap_or(text.len())
}

fn word_start(text: &[u8]) -> usize
    ensures start { result ≡ start_of_word text.now }
    ensures inside { result ≤ length text.now }
{
    first_letter(text).unwrap_or(text.len())
}

fn first_blank(text: &[u8]) -> Option<usize>
    ensures at { result ≡ position blank text.now }
    ensures inside { IfSome result (λ i. i < length text.now) }
{
    text.iter().position(|b| is_blank(*b))
}

// The first byte that is no blank.
fn first_letter(text: &[u8]) -> Option<usize>
    ensures at { result ≡ position (λ b. not (blank b)) text.now }
    ensures inside { IfSome result (λ i. i < length text.now) }
{
    text.iter().position(|b| !is_blank(*b))
}

// The number that a text begins with, and what follows it.
pub(crate) fn split_u64(text: &[u8]) -> Option<(u64, &[u8])>
    ensures { MatchOption result ((n : ℕ) → ¬ (Numeral 64 (first_word text.now) n))
        (λ found. Numeral 64 (first_word text.now) found.0
        × (found.1.now ≡ after_word text.now)) }
{
    let (word, rest) = split_word(text);
    Some((u64_in(word)?, rest))
}

pub(crate) fn split_u32(text: &[u8]) -> Option<(u32, &[u8])>
    ensures { MatchOption result ((n : ℕ) → ¬ (Numeral 32 (first_word text.now) n))
        (λ found. Numeral 32 (first_word text.now) found.0
        × (found.1.now ≡ after_word text.now)) }
{
    let (word, rest) = split_word(text);
    Some((u32_in(word)?, rest))
}

// The word that a text is, if it is one word and no more.
fn only(text: &[u8]) -> Option<&[u8]>
    ensures { MatchOption result (after_word text.now ≢ [])
        (λ w. (w.now ≡ first_word text.now) × (after_word text.now ≡ [])) }
{
    match split_word(text) {
        (word, []) => Some(word),
        _ => None,
    }
}

// A word as text.
pub(crate) fn text_of(word: &[u8]) -> Option<&str>
    ensures { MatchOption result (¬ (IsText word.now)) (λ w. (w.now ≡ word.now) × IsText word.now) }
{
    match word {
        [] => None,
        _ => str::from_utf8(word).ok(),
    }
}

// The number that a word spells.
fn u64_in(word: &[u8]) -> Option<u64>
    ensures { Parses (Numeral 64 word.now) result }
{
    text_of(word)?.parse::<u64>().ok()
}

fn u32_in(word: &[u8]) -> Option<u32>
    ensures { Parses (Numeral 32 word.now) result }
{
    text_of(word)?.parse::<u32>().ok()
}

pub(crate) fn u16_in(word: &[u8]) -> Option<u16>
    ensures { Parses (Numeral 16 word.now) result }
{
    text_of(word)?.parse::<u16>().ok()
}

// Whether a word is digits, and nothing else.
pub(crate) fn is_numeral(word: &[u8]) -> bool
    ensures { IsTrue result ↔ IsNumeral 10 word.now }
{
    !word.is_empty() && all_digits(word)
}

fn all_digits(word: &[u8]) -> bool
    ensures { result ≡ list_all is_ascii_digit word.now }
{
    word.iter().all(|b| b.is_ascii_digit())
}

// The text, or the number, that a text of one word is.
pub(crate) fn only_text(text: &[u8]) -> Option<&str>
    ensures { MatchOption result ((w : List ℕ) → ¬ (Only text.now w)) (λ w. Only text.now w.now) }
{
    text_of(only(text)?)
}

pub(crate) fn only_u64(text: &[u8]) -> Option<u64>
    ensures { Parses (OnlyNumeral 64 text.now) result }
{
    u64_in(only(text)?)
}

pub(crate) fn only_u32(text: &[u8]) -> Option<u32>
    ensures { Parses (OnlyNumeral 32 text.now) result }
{
    u32_in(only(text)?)
}

pub(crate) fn only_u16(text: &[u8]) -> Option<u16>
    ensures { Parses (OnlyNumeral 16 text.now) result }
{
    u16_in(only(text)?)
}
