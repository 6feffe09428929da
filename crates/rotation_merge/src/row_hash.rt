//! How the words of a row are hashed.
//!
//! std's hasher takes what is written apart into bytes, in some eighty instructions a word. Here a word is taken whole, and mixed
//! in as std's hasher does it with eight bytes, so each row has the number that it has there. No contract speaks of the numbers.

ghost use Rattle.std.specs.Prelude.{◌≡◌, ℕ, slice_index};
ghost use Rattle.std.specs.Int.{w64, from_le_bytes};
ghost use Rattle.std.specs.Hash.FoldHasher.{folded_multiply};
ghost use Rattle.rotation_merge.specs.Hashing.{mixed};

use std::hash::{BuildHasherDefault, Hasher};

/// Makes a [`RowHasher`] for each row.
pub type RowHash = BuildHasherDefault<RowHasher>;

/// Hashes words. Of bytes that are written otherwise the first eight count.
#[derive(Clone, Copy)]
pub struct RowHasher {
    state: u64,
}

impl Default for RowHasher {
    ghost use Rattle.std.specs.Prelude.{◌≡◌};

    ghost is_default = { λ h. h.state ≡ 0x243f_6a88_85a3_08d3 };

    fn default() -> RowHasher {
        RowHasher {
            state: 0x243f_6a88_85a3_08d3,
        }
    }
}

impl Hasher for RowHasher {
    ghost use Rattle.std.specs.Int.{w64, from_le_bytes};
    ghost use Rattle.rotation_merge.specs.Hashing.{mixed};

    ghost write = { λ h bytes. record { state = mixed h.state (from_le_bytes w64 bytes) } };

    ghost finish = { λ h. h.state };

    fn finish(&self) -> u64 {
        self.state
    }

    fn write(&mut self, bytes: &[u8]) {
        self.state = mix(self.state, word(bytes));
    }

    fn write_u64(&mut self, i: u64) {
        self.state = mix(self.state, i);
    }

    fn write_usize(&mut self, i: usize) {
        self.state = mix(self.state, i as u64);
    }
}

/// The state once a word is mixed in: both halves of a product.
fn mix(state: u64, word: u64) -> u64
    ensures { result ≡ mixed state word }
{
    let product = (state ^ word) as u128 * 0x9e37_79b9_7f4a_7c05 as u128;
    (product & 0xFFFF_FFFF_FFFF_FFFF) as u64 ^ (product >> 64) as u64
}

/// The first eight bytes as a word, with zeros behind where they are fewer.
fn word(bytes: &[u8]) -> u64
    ensures { result ≡ from_le_bytes w64 bytes.now }
{
    u64::from_le_bytes([
        byte(bytes, 0),
        byte(bytes, 1),
        byte(bytes, 2),
        byte(bytes, 3),
        byte(bytes, 4),
        byte(bytes, 5),
        byte(bytes, 6),
        byte(bytes, 7),
    ])
}

/// A byte, or zero where there is none.
fn byte(bytes: &[u8], i: usize) -> u8
    ensures { result ≡ slice_index bytes.now i }
{
    if i < bytes.len() { bytes[i] } else { 0 }
}
