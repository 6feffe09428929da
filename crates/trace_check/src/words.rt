//! The words of a line: what it says, and its numbers.

ghost use Rattle.std.specs.Prelude.{◌≡◌, ℕ, ◌^◌, ◌<◌, ◌≤◌, ◌∷◌, List, [], IfOk, MatchOption, decimal, drop, length, nat_eq, not};
ghost use Rattle.std.specs.List.{prefix_len};
ghost use Rattle.rewrite_pass.specs.TraceLines.{words};
ghost use Rattle.trace_model.specs.Spelling.{AreSmall, HasNoSpace, IsWordIn, piece, piece_size, spelling};
ghost use Rattle.trace_model.specs.declared.word.Word.{Word};

use crate::numbers::number;
use std::alloc::AllocError;
use trace_model::Word;

/// The word that some bytes spell.
fn word_of(bytes: &[u8]) -> Option<Word>
    ensures { MatchOption result ((w : Word) → bytes.now ≡ spelling w → ⊥) (λ w. bytes.now ≡ spelling w) }
{
    if bytes == b"emit".as_slice() {
        return Some(Word::Emit);
    }
    if bytes == b"swap".as_slice() {
        return Some(Word::Swap);
    }
    if bytes == b"back".as_slice() {
        return Some(Word::Back);
    }
    if bytes == b"turn".as_slice() {
        return Some(Word::Turn);
    }
    if bytes == b"rule".as_slice() {
        return Some(Word::Rule);
    }
    if bytes == b"both".as_slice() {
        return Some(Word::Both);
    }
    if bytes == b"join".as_slice() {
        return Some(Word::Join);
    }
    if bytes == b"sums".as_slice() {
        return Some(Word::Sums);
    }
    if bytes == b"place".as_slice() {
        return Some(Word::Place);
    }
    if bytes == b"end".as_slice() {
        return Some(Word::End);
    }
    if bytes == b"TRACE".as_slice() {
        return Some(Word::Trace);
    }
    later_word_of(bytes)
}

/// The word that came with the second edition and that some bytes spell.
fn later_word_of(bytes: &[u8]) -> Option<Word>
    ensures { MatchOption result ((w : Word) → (IsWordIn 1 w → ⊥) → bytes.now ≡ spelling w → ⊥) (λ w. bytes.now ≡ spelling w) }
{
    if bytes == b"part".as_slice() {
        return Some(Word::Part);
    }
    if bytes == b"phases".as_slice() {
        return Some(Word::Phases);
    }
    if bytes == b"goal".as_slice() {
        return Some(Word::Goal);
    }
    if bytes == b"meet".as_slice() {
        return Some(Word::Meet);
    }
    if bytes == b"elide".as_slice() {
        return Some(Word::Elide);
    }
    None
}

/// The number of bytes before the first space.
fn piece_len(bytes: &[u8]) -> usize
    ensures value { result ≡ prefix_len (λ b. not (nat_eq b 32)) bytes.now }
    ensures bound { result ≤ length bytes.now }
{
    bytes.iter().take_while(|byte| **byte != b' ').count()
}

/// The number behind the first byte of some bytes, up to the next space, and the bytes behind it.
fn read_number(bytes: &[u8]) -> Option<(u32, &[u8])>
    requires { 0 < length bytes.now }
    ensures number { MatchOption result ((n : ℕ) → n < 2 ^ 32 → piece (drop 1 bytes.now) ≡ decimal n → ⊥) (λ p. piece (drop 1 bytes.now) ≡ decimal p.0) }
    ensures left { MatchOption result (Unit {0}) (λ p. p.1.now ≡ drop (piece_size (drop 1 bytes.now)) (drop 1 bytes.now)) }
    ensures shorter { MatchOption result (Unit {0}) (λ p. length p.1.now < length bytes.now) }
    ensures below { MatchOption result (Unit {0}) (λ p. p.0 < 2 ^ 32) }
{
    let behind = &bytes[1..];
    let size = piece_len(behind);
    match number(&behind[..size]) {
        Some(value) => Some((value, &behind[size..])),
        None => None,
    }
}

/// The bytes before the first space of a line, and the numbers behind them, in the place of those that were there. None where
/// a space has no number behind it.
pub(crate) fn split_words<'a>(
    line: &'a [u8],
    numbers: &mut Vec<u32>,
) -> Result<Option<&'a [u8]>, AllocError>
    ensures ok { IfOk result (λ o. MatchOption o ((w ks : List ℕ) → HasNoSpace w → AreSmall ks → line.now ≡ words w ks → ⊥)
        (λ w. HasNoSpace w.now × (line.now ≡ words w.now numbers.new.items))) }
{
    numbers.clear();
    let size = piece_len(line);
    let mut rest = &line[size..];
    'numbers: while !rest.is_empty() {
        let Some((value, behind)) = read_number(rest) else {
            return Ok(None);
        };
        numbers.push(value)?;
        rest = behind;
    }
    Ok(Some(&line[..size]))
}

/// The word and the numbers of a line. None where no word of a trace with numbers is spelt so.
pub(crate) fn read_words(line: &[u8], numbers: &mut Vec<u32>) -> Result<Option<Word>, AllocError>
    ensures ok { IfOk result (λ o. MatchOption o ((w : Word) (ks : List ℕ) → AreSmall ks → line.now ≡ words (spelling w) ks → ⊥)
        (λ w. line.now ≡ words (spelling w) numbers.new.items)) }
{
    match split_words(line, numbers)? {
        Some(bytes) => Ok(word_of(bytes)),
        None => Ok(None),
    }
}

/// Numbers of their type are small: does nothing, and its contract says so.
pub(crate) fn known_small(numbers: &[u32])
    ensures small { AreSmall numbers.now }
{}

/// The number of a list of one.
pub(crate) fn one(numbers: &[u32]) -> Option<u32>
    ensures found { MatchOption result ((i : ℕ) → numbers.now ≡ i ∷ [] → ⊥) (λ i. numbers.now ≡ i ∷ []) }
{
    if numbers.len() == 1 {
        Some(numbers[0])
    } else {
        None
    }
}

/// The numbers of a list of two.
pub(crate) fn two(numbers: &[u32]) -> Option<(u32, u32)>
    ensures found { MatchOption result ((i j : ℕ) → numbers.now ≡ i ∷ j ∷ [] → ⊥) (λ p. numbers.now ≡ p.0 ∷ p.1 ∷ []) }
{
    if numbers.len() == 2 {
        Some((numbers[0], numbers[1]))
    } else {
        None
    }
}

/// The numbers of a list of three.
pub(crate) fn three(numbers: &[u32]) -> Option<(u32, u32, u32)>
    ensures found { MatchOption result ((i j k : ℕ) → numbers.now ≡ i ∷ j ∷ k ∷ [] → ⊥) (λ p. numbers.now ≡ p.0 ∷ p.1 ∷ p.2 ∷ []) }
{
    if numbers.len() == 3 {
        Some((numbers[0], numbers[1], numbers[2]))
    } else {
        None
    }
}
