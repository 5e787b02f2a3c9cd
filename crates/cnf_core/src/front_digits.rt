//! The digits of a number, taken from a slice.
ghost use Rattle.std.specs.Prelude.{◌≡◌, ◌≤◌, length};
ghost use Rattle.cnf_core.specs.FrontDigits.{DigitsLead};

/// Below this size one more digit leaves a number below 2^63.
const LARGE: u64 = 1 << 59;

/// A number, and the number of digits that were taken into it.
#[derive(Clone, Copy, Drop)]
pub struct FrontDigits {
    pub size: u64,
    pub count: usize,
}

/// Takes digits from the front of the bytes into the number, as long as it is not large.
#[inline(always)]
pub fn take_digits(number: u64, bytes: &[u8]) -> FrontDigits
    ensures within { result.count ≤ length bytes.now }
    ensures lead { DigitsLead number bytes.now result.size result.count }
    ensures none { result.count ≡ 0 → result.size ≡ number }
{
    let mut size = number;
    for (count, &byte) in bytes.iter().enumerate() {
        if size >= LARGE || !byte.is_ascii_digit() {
            return FrontDigits { size, count };
        }
        size = 10 * size + (byte - b'0') as u64;
    }
    FrontDigits {
        size,
        count: bytes.len(),
    }
}
