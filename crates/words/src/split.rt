ghost use Rattle.std.specs.Prelude.{◌≡◌, ◌+◌, ◌<◌, ◌≤◌, true, false, length, take, drop, MatchOption};
ghost use Rattle.std.specs.Str.{bytes_eq};
ghost use Rattle.words.specs.Lines.{until, first_word, after_word, after_words, word_at, ended, begins};

use crate::Problem;
use crate::class::{AllBut, Only, run};

/// How many bytes stand before the first `stop`: all of them where there is none.
pub fn up_to(bytes: &[u8], stop: u8) -> usize
    ensures value { result ≡ until stop bytes.now }
    ensures bound { result ≤ length bytes.now }
{
    run(&AllBut(stop), bytes)
}

/// The first line, up to its end at byte 10, and what follows that byte.
pub fn split_line(text: &[u8]) -> (&[u8], &[u8])
    ensures line { result.0.now ≡ take (until 10 text.now) text.now }
    ensures rest { result.1.now ≡ drop (until 10 text.now + 1) text.now }
    ensures shorter { 0 < length text.now → length result.1.now < length text.now }
{
    let (line, rest) = text.split_at(up_to(text, b'\n'));
    match rest {
        [] => (line, rest),
        [_, after @ ..] => (line, after),
    }
}

/// The line without its comment.
pub fn uncommented(line: &[u8]) -> &[u8]
    ensures { result.now ≡ take (until 35 line.now) line.now }
{
    &line[..up_to(line, b'#')]
}

/// The first word and what follows it. Where there is no word, both are empty.
#[tactic(auto, unfolding(crate::specs::Lines::first_word, crate::specs::Lines::after_word))]
fn split_word(text: &[u8]) -> (&[u8], &[u8])
    ensures word { result.0.now ≡ first_word text.now }
    ensures rest { result.1.now ≡ after_word text.now }
{
    let (_, from) = text.split_at(run(&Only(b' '), text));
    from.split_at(up_to(from, b' '))
}

/// What follows the first `n` words.
#[tactic(auto, unfolding(crate::specs::Lines::after_words))]
pub fn after(text: &[u8], n: usize) -> &[u8]
    ensures { result.now ≡ after_words n text.now }
{
    let mut rest = text;
    for _ in 0..n {
        (_, rest) = split_word(rest);
    }
    rest
}

/// The word at the place `n`, counted from 0. Where there are not so many, it is empty.
pub fn word(text: &[u8], n: usize) -> &[u8]
    ensures { result.now ≡ word_at n text.now }
{
    let (word, _) = split_word(after(text, n));
    word
}

/// Tests that no word is left.
#[tactic(auto, unfolding(crate::specs::Lines::ended))]
pub fn end(text: &[u8]) -> Result<(), Problem>
    ensures { result ≡ ended text.now }
{
    if word(text, 0).is_empty() {
        Ok(())
    } else {
        Err(Problem::ExtraWord)
    }
}

/// Whether a word is the name.
pub fn is(word: &[u8], name: &str) -> bool
    ensures { result ≡ bytes_eq word.now name.now }
{
    word == name.as_bytes()
}

/// What follows the name in a word that begins with it.
pub fn strip<'a>(word: &'a [u8], name: &str) -> Option<&'a [u8]>
    ensures { MatchOption result (begins name.now word.now ≡ false) (λ x. (begins name.now word.now ≡ true) × (x.now ≡ drop (length name.now) word.now)) }
{
    word.strip_prefix(name.as_bytes())
}
