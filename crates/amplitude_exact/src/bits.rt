//! Lists of bits as numbers, the first bit being the lowest.

ghost use Rattle.std.specs.Prelude.{◌≡◌, ◌^◌, ◌<◌, ◌≤◌, cond, not, length};
ghost use Rattle.unitary_model.specs.Amplitude.{bit_of, with_bit};
ghost use Rattle.amplitude_exact.specs.Columns.{bits};

/// The number of some bits.
pub(crate) fn number_of(list: &[bool]) -> usize
    requires wires_limit { length list.now ≤ 12 }
    ensures below { result < 2 ^ length list.now }
    ensures bits { bits (length list.now) result ≡ list.now }
{
    let mut number = 0;
    let mut left = list.len();
    'bits: while left > 0 {
        left -= 1;
        number = 2 * number + list[left] as usize;
    }
    number
}

/// The bit at a wire, 0 at one that isn't there.
pub(crate) fn bit_at(number: usize, wires: u32, q: u32) -> bool
    requires wires_limit { wires ≤ 12 }
    ensures bit { result ≡ bit_of (bits wires number) q }
{
    q < wires && (number >> q) % 2 == 1
}

/// The number with a bit at a wire, the same number at one that isn't there.
pub(crate) fn with_bit(number: usize, wires: u32, q: u32, bit: bool) -> usize
    requires wires_limit { wires ≤ 12 }
    requires below { number < 2 ^ wires }
    ensures below { result < 2 ^ wires }
    ensures bits { bits wires result ≡ with_bit (bits wires number) q bit }
{
    if q >= wires {
        return number;
    }
    let place = power_of_two(q);
    let cleared = if bit_at(number, wires, q) {
        number - place
    } else {
        number
    };
    if bit { cleared + place } else { cleared }
}

/// 2^q
pub(crate) fn power_of_two(q: u32) -> usize
    requires small { q ≤ 12 }
    ensures value { result ≡ 2 ^ q }
{
    1 << q
}

/// The number behind a CNOT: the target's bit is changed where the control's is 1.
pub(crate) fn flipped(number: usize, wires: u32, c: u32, t: u32) -> usize
    requires wires_limit { wires ≤ 12 }
    requires below { number < 2 ^ wires }
    ensures below { result < 2 ^ wires }
    ensures bits { let x = bits wires number in bits wires result ≡ cond (bit_of x c) (with_bit x t (not (bit_of x t))) x }
{
    if bit_at(number, wires, c) {
        with_bit(number, wires, t, !bit_at(number, wires, t))
    } else {
        number
    }
}
