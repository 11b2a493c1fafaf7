//! The bits of words.
ghost use Rattle.std.specs.Prelude.{◌≡◌, ◌≢◌, ℕ, ◌<◌, ◌*◌, ◌==◌, not, IfOk, MatchBool, replicate, true, false, length, slice_set};
ghost use Rattle.std.specs.Int.{bit_at};
ghost use Rattle.bit_sets.specs.Words.{word_at, bit_of, joined, united};

use std::alloc::{AllocError, Global};

/// As many words without bits.
pub(crate) fn empty_words(alloc: Global, len: usize) -> Result<Vec<u64>, AllocError>
    ensures { IfOk result (λ words. words.items ≡ replicate len 0) }
{
    vec![in alloc; 0u64; len]
}

fn has_bit(word: u64, bit: u32) -> bool
    requires { bit < 64 }
    ensures { result ≡ (bit_at word bit == 1) }
{
    (word >> bit) & 1 == 1
}

fn with_bit(word: u64, bit: u32) -> u64
    requires { bit < 64 }
    ensures set { bit_at result bit ≡ 1 }
    ensures others { (i : ℕ) → i ≢ bit → bit_at result i ≡ bit_at word i }
{
    word | (1 << bit)
}

fn without_bit(word: u64, bit: u32) -> u64
    requires { bit < 64 }
    ensures clear { bit_at result bit ≡ 0 }
    ensures others { (i : ℕ) → i < 64 → i ≢ bit → bit_at result i ≡ bit_at word i }
{
    word & !(1 << bit)
}

/// A word; one that is missing has no bits.
#[tactic(auto, using(crate::proofs::WordLemmas::word_read, crate::proofs::WordLemmas::word_beyond))]
fn word_at(words: &[u64], place: usize) -> u64
    ensures { result ≡ word_at words.now place }
{
    if place < words.len() { words[place] } else { 0 }
}

pub(crate) fn bit_of(words: &[u64], number: usize) -> bool
    ensures { result ≡ bit_of words.now number }
{
    has_bit(word_at(words, number / 64), (number % 64) as u32)
}

pub(crate) fn set_bit(words: &mut Vec<u64>, number: usize)
    requires { number < 64 * length words.old.items }
    ensures len { length words.new.items ≡ length words.old.items }
    ensures set { bit_of words.new.items number ≡ true }
    ensures others { (n : ℕ) → n ≢ number → bit_of words.new.items n ≡ bit_of words.old.items n }
{
    let place = number / 64;
    words[place] = with_bit(words[place], (number % 64) as u32);
}

pub(crate) fn clear_bit(words: &mut Vec<u64>, number: usize)
    requires { number < 64 * length words.old.items }
    ensures len { length words.new.items ≡ length words.old.items }
    ensures clear { bit_of words.new.items number ≡ false }
    ensures others { (n : ℕ) → n ≢ number → bit_of words.new.items n ≡ bit_of words.old.items n }
{
    let place = number / 64;
    words[place] = without_bit(words[place], (number % 64) as u32);
}

/// Adds bits to a word, and tells whether it has changed.
#[tactic(auto, using(crate::proofs::WordLemmas::word_read))]
fn join_word(words: &mut Vec<u64>, place: usize, more: u64) -> bool
    requires { place < length words.old.items }
    ensures words { words.new.items ≡ slice_set words.old.items place (joined place more words.old.items) }
    ensures changed { result ≡ not (joined place more words.old.items == word_at words.old.items place) }
{
    let word = words[place];
    words[place] = word | more;
    word | more != word
}

/// Adds the bits of other words, and tells whether a word has changed.
pub(crate) fn unite(words: &mut Vec<u64>, others: &[u64]) -> bool
    requires { length words.old.items ≡ length others.now }
    ensures words { words.new.items ≡ united 0 others.now words.old.items }
    ensures grows { MatchBool result ((n : ℕ) × (bit_of words.new.items n ≢ bit_of words.old.items n)) (words.new.items ≡ words.old.items) }
{
    let mut grows = false;
    for (place, more) in others.iter().enumerate() {
        if join_word(words, place, *more) {
            grows = true;
        }
    }
    grows
}
