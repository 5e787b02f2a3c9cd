//! Numbers as words. Source: DIMACS.
ghost use Rattle.std.specs.Prelude.{◌≡◌, ◌<◌, ◌≤◌, ◌^◌, nat_abs, None, Some, if◌then◌else◌, IfOk, IfErr};
ghost use Rattle.semantics.specs.Decimal.{digits_number};
ghost use Rattle.solve_cnf.specs.Reading.{Refusal, are_digits, is_negative, digits_of, number_of, wrong_word};
ghost use Rattle.solve_cnf.specs.Header.{held_number};
ghost use Rattle.solve_cnf.specs.Refusals.{refusal_of};
ghost use Rattle.solve_cnf.specs.Places.{is_wrong, place_if, Names};
ghost use Rattle.solve_cnf.specs.Counts.{counts_of};

use crate::formula_error::ReadError;

/// The number that decimal digits say, or `u64::MAX` where the number is greater.
pub fn digits_number(digits: &[u8]) -> Option<u64>
    ensures { result ≡ (if are_digits digits.now then Some (held_number (digits_number digits.now))
        else None) }
{
    if digits.is_empty() {
        return None;
    }
    let mut number: u64 = 0;
    for digit in digits {
        if !digit.is_ascii_digit() {
            return None;
        }
        number = number
            .saturating_mul(10)
            .saturating_add(u64::from(digit - b'0'));
    }
    Some(number)
}

/// Whether a minus stands before the digits.
fn is_negative(word: &[u8]) -> bool
    ensures { result ≡ is_negative word.now }
{
    !word.is_empty() && word[0] == b'-'
}

/// What stands behind the minus, or the whole word.
fn digits_of(word: &[u8]) -> &[u8]
    ensures { result.now ≡ digits_of word.now }
{
    if is_negative(word) { &word[1..] } else { word }
}

/// The literal of one of `vars` variables that a word on this line is, or 0.
pub fn number_of(word: &[u8], vars: u32, line: usize) -> Result<i32, ReadError>
    requires { vars < 2 ^ 31 }
    ensures right { IfOk result (λ n. wrong_word vars word.now ≡ None) }
    ensures number { IfOk result (λ n. n ≡ number_of word.now) }
    ensures within { IfOk result (λ n. nat_abs n ≤ vars) }
    ensures wrong { IfErr result (λ told. (refusal : Refusal)
        → refusal_of told ≡ Some refusal → wrong_word vars word.now ≡ Some refusal) }
    ensures refused { IfErr result (λ told. (refusal : Refusal) × (refusal_of told ≡ Some refusal)) }
    ensures place { IfErr result (λ told. Names told (place_if (is_wrong vars word.now) line)) }
    ensures no_counts { IfErr result (λ told. counts_of told ≡ None) }
{
    let Some(size) = digits_number(digits_of(word)) else {
        return Err(ReadError::NoNumber { line });
    };
    if size > u64::from(vars) {
        return Err(ReadError::NoVariable { line });
    }
    let size = size as i32;
    Ok(if is_negative(word) { -size } else { size })
}
