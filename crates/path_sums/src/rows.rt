//! What stands on sets, as terms whose sets are words.

ghost use Rattle.std.specs.Prelude.{◌≡◌, ◌+◌, ◌<◌, All, IfOk, OnOk, cond, map};
ghost use Rattle.unitary_model.specs.Acts.{Bits};
ghost use Rattle.path_parity.specs.PathFunctions.{parity, phase};
ghost use Rattle.path_parity.specs.Sets.{IsPacked};
ghost use Rattle.path_sums.specs.Sums.{AreTotals, IsCompact, compact_set, sums_of};
ghost use Rattle.path_sums.specs.Rows.{words_behind, words_in};
ghost use Rattle.path_sums.specs.Terms.{IsTerm, term_of};
ghost use Rattle.path_sums.specs.Words.{AreAscending, words_set};

use crate::sums::MARK;
use crate::term::Term;
use crate::words::Word;
use indexmap::IndexMap;
use std::alloc::{AllocError, Global};

/// What stands on sets, by their compact rows, as terms: each that isn't 0.
pub(crate) fn terms_of(
    alloc: Global,
    sets: &IndexMap<Vec<u64>, u8>,
) -> Result<Vec<Term>, AllocError>
    requires { AreTotals sets.now.entries }
    ensures same { IfOk result (λ v. (u : Bits) → phase (map term_of v.items) u ≡ phase (sums_of sets.now.entries) u) }
    ensures terms { IfOk result (λ v. All IsTerm v.items) }
{
    let mut terms = Vec::new(alloc);
    'sets: for index in 0..sets.len() {
        if let Some((row, total)) = sets.get_index(index) {
            push_term(alloc, &mut terms, row, *total)?;
        }
    }
    Ok(terms)
}

/// Puts a term behind others, if anything stands on it.
fn push_term(alloc: Global, terms: &mut Vec<Term>, row: &[u64], k: u8) -> Result<(), AllocError>
    requires row { IsCompact row.now }
    requires terms { All IsTerm terms.old.items }
    ensures adds { OnOk result ((u : Bits) → phase (map term_of terms.new.items) u ≡ phase (map term_of terms.old.items) u + cond (parity u (compact_set row.now)) k 0) }
    ensures terms { OnOk result (All IsTerm terms.new.items) }
{
    if k == 0 {
        return Ok(());
    }
    let set = words_of(alloc, row)?;
    terms.push(Term { set, k })?;
    Ok(())
}

/// The words of a compact row that aren't 0.
fn words_of(alloc: Global, row: &[u64]) -> Result<Vec<Word>, AllocError>
    requires { IsCompact row.now }
    ensures set { IfOk result (λ v. words_set v.items ≡ compact_set row.now) }
    ensures words { IfOk result (λ v. AreAscending v.items) }
{
    if !row.is_empty() && row[0] == MARK {
        return sparse_words(alloc, row);
    }
    full_words(alloc, row)
}

/// The words of a sparse row, behind the mark.
fn sparse_words(alloc: Global, row: &[u64]) -> Result<Vec<Word>, AllocError>
    ensures { IfOk result (λ v. v.items ≡ words_behind row.now) }
{
    let mut words = Vec::new(alloc);
    let mut index = 1;
    'words: while index + 1 < row.len() {
        words.push(Word {
            place: row[index],
            bits: row[index + 1],
        })?;
        index += 2;
    }
    Ok(words)
}

/// The words of a row that aren't 0.
fn full_words(alloc: Global, row: &[u64]) -> Result<Vec<Word>, AllocError>
    requires { IsPacked row.now }
    ensures { IfOk result (λ v. v.items ≡ words_in row.now) }
{
    let mut words = Vec::new(alloc);
    'words: for index in 1..row.len() {
        if row[index] != 0 {
            words.push(Word {
                place: row[0] + (index as u64 - 1),
                bits: row[index],
            })?;
        }
    }
    Ok(words)
}
