//! Decimal numbers of the command line and of reports: `0`, or digits without a leading zero; no sign.
ghost use Rattle.std.specs.Prelude.{◌≡◌, ◌≤◌, ◌^◌, ◌<◌, ◌+◌, ◌*◌, ◌-◌, ◌/◌};
ghost use Rattle.job_semantics.specs.Job.{number_from_to};

use semantics::limits::LARGEST_ERROR;

/// The number that the word is, if it is a decimal number from `low` to `high`.
pub fn number_from_to(word: &[u8], low: u128, high: u128) -> Option<u128>
    requires { high ≤ LARGEST_ERROR }
    ensures { result ≡ number_from_to low high word.now }
{
    if word.is_empty() || (word.len() > 1 && word[0] == b'0') {
        return None;
    }
    let mut number: u128 = 0;
    for digit in word {
        if !digit.is_ascii_digit() {
            return None;
        }
        number = 10 * number + u128::from(digit - b'0');
        if number > high {
            return None;
        }
    }
    if number < low {
        return None;
    }
    Some(number)
}
