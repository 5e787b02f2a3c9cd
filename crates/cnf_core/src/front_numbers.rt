//! Whole numbers, taken from a slice.
ghost use Rattle.std.specs.Prelude.{◌≡◌, ◌≤◌, length, IfOk};
ghost use Rattle.cnf_core.specs.Drafts.{HasGrown};
ghost use Rattle.cnf_core.specs.FrontNumbers.{NumbersLead};

use crate::draft::Draft;
use crate::front_digits::take_digits;
use crate::held_word::is_blank;
use std::alloc::AllocError;

/// Adds the positive numbers at the front of the bytes, each of which ends with a blank, to the list at hand.
/// Returns how many bytes they are.
#[inline(always)]
pub fn take_numbers(numbers: &mut Draft<u64>, bytes: &[u8]) -> Result<usize, AllocError>
    ensures within { IfOk result (λ count. count ≤ length bytes.now) }
    ensures lead { IfOk result
        (λ count. NumbersLead numbers.old.at_hand bytes.now numbers.new.at_hand count) }
    ensures none { IfOk result (λ count. count ≡ 0 → numbers.new ≡ numbers.old) }
    ensures grown { HasGrown numbers.old numbers.new }
{
    let mut count = 0;
    'numbers: loop {
        let digits = take_digits(0, &bytes[count..]);
        let end = count + digits.count;
        if digits.size == 0 || end >= bytes.len() || !is_blank(bytes[end]) {
            return Ok(count);
        }
        numbers.push(digits.size)?;
        count = end + 1;
    }
}
