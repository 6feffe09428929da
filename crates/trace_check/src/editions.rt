//! The edition of a trace, and the words that it has.

ghost use Rattle.std.specs.Prelude.{◌≡◌, ℕ, ◌∷◌, [], List, IfOk, MatchOption, codes, false, true};
ghost use Rattle.std.specs.List.{list_any};
ghost use Rattle.rewrite_pass.specs.TraceLines.{words};
ghost use Rattle.trace_text.specs.Texts.{begins, lines_of};
ghost use Rattle.trace_model.specs.Lines.{edition_of, is_later};
ghost use Rattle.trace_model.specs.Spelling.{AreSmall, IsWordIn, spelling};
ghost use Rattle.trace_model.specs.declared.word.Word.{Word};

use crate::words::{one, read_words};
use std::alloc::AllocError;
use trace_model::Word;
use trace_text::first_line;

/// The edition that the numbers of a first line name, before that text: the second only if a line of the text came with it.
pub(crate) fn edition_from(numbers: &[u32], behind: &[u8]) -> Option<u32>
    ensures named { MatchOption result
        (numbers.now ≡ edition_of (words (codes "TRACE") numbers.now ∷ lines_of behind.now) ∷ [] → ⊥)
        (λ v. (numbers.now ≡ v ∷ []) × (edition_of (words (codes "TRACE") (v ∷ []) ∷ lines_of behind.now) ≡ v)) }
{
    let number = one(numbers)?;
    if number == 1 {
        return Some(number);
    }
    if number != 2 {
        return None;
    }
    if has_later(behind) {
        Some(number)
    } else {
        None
    }
}

/// Whether a line of a text begins with a word that came with the second edition.
fn has_later(text: &[u8]) -> bool
    ensures { result ≡ list_any is_later (lines_of text.now) }
{
    let mut rest = text;
    'lines: while let Some((line, behind)) = first_line(rest) {
        if is_later(line) {
            return true;
        }
        rest = behind;
    }
    false
}

/// Whether a line begins with such a word.
fn is_later(line: &[u8]) -> bool
    ensures { result ≡ is_later line.now }
{
    if lists_later(line) {
        return true;
    }
    tells_later(line)
}

/// Whether a line begins with one of these words behind which gates are listed.
fn lists_later(line: &[u8]) -> bool
    ensures { result ≡ list_any (λ w. begins w line.now) (codes "part" ∷ codes "phases" ∷ codes "goal" ∷ []) }
{
    line.strip_prefix(b"part".as_slice()).is_some()
        || line.strip_prefix(b"phases".as_slice()).is_some()
        || line.strip_prefix(b"goal".as_slice()).is_some()
}

/// Whether a line begins with one of the others.
fn tells_later(line: &[u8]) -> bool
    ensures { result ≡ list_any (λ w. begins w line.now) (codes "meet" ∷ codes "elide" ∷ []) }
{
    line.strip_prefix(b"meet".as_slice()).is_some()
        || line.strip_prefix(b"elide".as_slice()).is_some()
}

/// Whether an edition has a word.
fn has_word(edition: u32, word: Word) -> bool
    ensures yes { result ≡ true → IsWordIn edition word }
    ensures no { result ≡ false → IsWordIn edition word → ⊥ }
{
    match word {
        Word::Part | Word::Phases | Word::Goal | Word::Meet | Word::Elide => edition >= 2,
        Word::Trace
        | Word::Rule
        | Word::Both
        | Word::Join
        | Word::Sums
        | Word::Place
        | Word::Emit
        | Word::Back
        | Word::Swap
        | Word::Turn
        | Word::End => true,
    }
}

/// The word and the numbers of a line. None where no word of the edition with numbers is spelt so.
pub(crate) fn read_line(
    line: &[u8],
    edition: u32,
    numbers: &mut Vec<u32>,
) -> Result<Option<Word>, AllocError>
    ensures ok { IfOk result (λ o. MatchOption o
        ((w : Word) (ks : List ℕ) → IsWordIn edition w → AreSmall ks → line.now ≡ words (spelling w) ks → ⊥)
        (λ w. IsWordIn edition w × (line.now ≡ words (spelling w) numbers.new.items))) }
{
    match read_words(line, numbers)? {
        Some(word) if has_word(edition, word) => Ok(Some(word)),
        _ => Ok(None),
    }
}
