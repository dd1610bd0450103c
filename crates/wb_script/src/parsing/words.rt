//! The words of a line.
ghost use Rattle.std.specs.Prelude.{◌≡◌, ◌≢◌, ◌<◌, ◌^◌, ◌↔◌, ℕ, IsTrue, MatchOption, length, map, take, slice_index};
ghost use Rattle.std.specs.Fmt.{decimal};
ghost use Rattle.wb_script.specs.Grammar.{words};
ghost use Rattle.wb_script.specs.Commands.{word};

use std::marker::Model;

/// How many words of a line are kept: one more than any request has.
const MOST_WORDS: usize = 6;

/// The words of a line. The first of them are kept.
#[derive(Drop)]
pub(super) struct Words<'a> {
    line: &'a [u8],
    first: [&'a [u8]; MOST_WORDS],
    count: usize,
}

impl<'a> Model for Words<'a> {
    ghost use Rattle.std.specs.Prelude.{◌≡◌, ℕ, List, length, map, take};
    ghost use Rattle.wb_script.specs.Grammar.{words};
    ghost use Rattle.wb_script.specs.declared.parsing.words.TheConstants.{MOST_WORDS};

    ghost Value = { List (List ℕ) };

    ghost view = { λ w. words w.line.now };

    ghost invariant = { λ w. (w.count ≡ length (take MOST_WORDS (words w.line.now))) × (map (λ word. word.now) (take w.count w.first) ≡ take MOST_WORDS (words w.line.now)) };
}

impl<'a> Words<'a> {
    /// The words of this line.
    pub(super) fn of(line: &'a [u8]) -> Words<'a>
        ensures { result ≡ words line.now }
    {
        let mut first: [&[u8]; MOST_WORDS] = [&[]; MOST_WORDS];
        let mut count = 0;
        for word in line.split(|byte| *byte == b' ').take(MOST_WORDS) {
            first[count] = word;
            count += 1;
        }
        Words { line, first, count }
    }

    /// The word of this number, counted from 0, or an empty one where there are fewer.
    pub(super) fn get(&self, index: usize) -> &'a [u8]
        requires { index < MOST_WORDS }
        ensures { result.now ≡ word self.now index }
    {
        if index < self.count {
            self.first[index]
        } else {
            &[]
        }
    }

    /// The number of words.
    pub(super) fn len(&self) -> usize
        ensures { result ≡ length self.now }
    {
        if self.count < MOST_WORDS {
            self.count
        } else {
            self.line.split(|byte| *byte == b' ').count()
        }
    }
}

/// Whether the word is this text.
pub(super) fn is(word: &[u8], text: &[u8]) -> bool
    ensures { IsTrue result ↔ (word.now ≡ text.now) }
{
    word == text
}

/// The number that the word spells in decimal digits, without a leading zero; at most `2 ^ 64 - 1`.
pub fn number(word: &[u8]) -> Option<u64>
    ensures { MatchOption result ((n : ℕ) → n < 2 ^ 64 → word.now ≡ decimal n → ⊥) (λ n. (n < 2 ^ 64) × (word.now ≡ decimal n)) }
{
    if !is_plain(word) {
        return None;
    }
    std::str::from_utf8(word).ok()?.parse().ok()
}

/// Whether the word begins with no plus, and with a zero only where that is all.
fn is_plain(word: &[u8]) -> bool
    ensures { IsTrue result ↔ ((slice_index word.now 0 ≢ 43) × (slice_index word.now 0 ≡ 48 → length word.now ≡ 1)) }
{
    match word.first() {
        Some(b'+') => false,
        Some(b'0') => word.len() == 1,
        _ => true,
    }
}
