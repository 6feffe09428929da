//! Sets of path variables as words in order of their places, with none that is 0.

ghost use Rattle.std.specs.Prelude.{◌≡◌, ◌+◌, ◌*◌, ◌<◌, ◌++◌, OnOk, bit_xor, length};
ghost use Rattle.std.specs.Int.{bit_at};
ghost use Rattle.path_sums.specs.Vanishing.{has_variable};
ghost use Rattle.path_sums.specs.Words.{AreAscending, word_sum, words_set};

use std::alloc::AllocError;

/// Some of 64 variables: bit b is variable 64 times the place plus b.
#[derive(Clone, Copy)]
pub(crate) struct Word {
    pub(crate) place: u64,
    pub(crate) bits: u64,
}

/// Writes the variables that stand in one of two sets and not in both, whatever the row held.
pub(crate) fn write_sum(row: &mut Vec<Word>, xs: &[Word], ys: &[Word]) -> Result<(), AllocError>
    requires left { AreAscending xs.now }
    requires right { AreAscending ys.now }
    ensures set { OnOk result (words_set row.new.items ≡ bit_xor (words_set xs.now) (words_set ys.now)) }
    ensures words { OnOk result (AreAscending row.new.items) }
{
    row.clear();
    let mut i = 0;
    let mut j = 0;
    'both: while i < xs.len() && j < ys.len() {
        let x = xs[i];
        let y = ys[j];
        if x.place < y.place {
            row.push(x)?;
            i += 1;
        } else if y.place < x.place {
            row.push(y)?;
            j += 1;
        } else {
            push_sum(row, x, y)?;
            i += 1;
            j += 1;
        }
    }
    row.extend_from_slice(&xs[i..])?;
    row.extend_from_slice(&ys[j..])?;
    Ok(())
}

/// Puts the sum of two words of one place behind a row, if it isn't 0.
fn push_sum(row: &mut Vec<Word>, x: Word, y: Word) -> Result<(), AllocError>
    ensures { OnOk result (row.new.items ≡ row.old.items ++ word_sum x y) }
{
    let bits = x.bits ^ y.bits;
    if bits != 0 {
        row.push(Word {
            place: x.place,
            bits,
        })?;
    }
    Ok(())
}

/// Whether a variable is in a set.
pub(crate) fn has(set: &[Word], variable: u64) -> bool
    requires { AreAscending set.now }
    ensures { result ≡ has_variable variable (words_set set.now) }
{
    'words: for index in 0..set.len() {
        if set[index].place == variable / 64 {
            return set[index].bits >> (variable % 64) & 1 == 1;
        }
    }
    false
}

/// A variable of a set, the least one.
pub(crate) fn variable_of(set: &[Word]) -> u64
    requires some { 0 < length set.now }
    requires words { AreAscending set.now }
    ensures { bit_at (words_set set.now) result ≡ 1 }
{
    64 * set[0].place + set[0].bits.trailing_zeros() as u64
}
