//! The error of one pair of output words, and of outputs that are cut into words. The first output of a word
//! is bit 0.
ghost use Rattle.std.specs.Prelude.{◌≡◌, ◌≤◌, ◌<◌, ◌+◌, ◌*◌, length};
ghost use Rattle.semantics.specs.Error.{number_of, signed_number_of, rounded_up, distance, differing};
ghost use Rattle.semantics.specs.Error.{word_error, error_of};

use crate::words::{word_count, word_place};
use semantics::limits::MOST_OUTPUTS;
use semantics::metric::{Kind, Metric};

/// The number of a list of bits.
fn number(bits: &[bool]) -> u64
    requires { length bits.now ≤ MOST_OUTPUTS }
    ensures { result ≡ number_of bits.now }
{
    let mut number: u64 = 0;
    for i in 0..bits.len() {
        number = number * 2 + u64::from(bits[bits.len() - 1 - i]);
    }
    number
}

/// The number of a list of bits in two's complement: the last bit is the sign.
fn signed_number(bits: &[bool]) -> i128
    requires { length bits.now ≤ MOST_OUTPUTS }
    ensures { result ≡ signed_number_of bits.now }
{
    let number = i128::from(number(bits));
    match bits.last() {
        Some(true) => number - (1 << bits.len()),
        _ => number,
    }
}

/// How many bits differ.
fn differing(exact: &[bool], approx: &[bool]) -> u64
    requires { length exact.now ≡ length approx.now }
    ensures { result ≡ differing exact.now approx.now }
{
    let mut count: u64 = 0;
    for (i, bit) in exact.iter().enumerate() {
        count += u64::from(*bit != approx[i]);
    }
    count
}

/// The error of one approximate word against the exact one.
pub fn word_error(kind: Kind, exact: &[bool], approx: &[bool]) -> u128
    requires width { length exact.now ≡ length approx.now }
    requires few { length exact.now ≤ MOST_OUTPUTS }
    ensures { result ≡ word_error kind exact.now approx.now }
{
    match kind {
        Kind::Abs => u128::from(number(exact).abs_diff(number(approx))),
        Kind::Rel => {
            let whole = number(exact);
            let apart = u128::from(whole.abs_diff(number(approx)));
            (apart * 1_000_000).div_ceil(u128::from(whole.max(1)))
        }
        Kind::Ham => u128::from(differing(exact, approx)),
        Kind::Sabs => signed_number(exact).abs_diff(signed_number(approx)),
    }
}

/// The error of the approximate outputs against the exact ones: that of the word that errs most.
pub fn error(metric: Metric, exact: &[bool], approx: &[bool]) -> u128
    requires width { length exact.now ≡ length approx.now }
    requires few { length exact.now ≤ MOST_OUTPUTS }
    ensures { result ≡ error_of metric exact.now approx.now }
{
    let outputs = exact.len() as u32;
    let mut greatest = 0;
    for word in 0..word_count(metric, outputs) {
        let (first, size) = word_place(metric, outputs, word);
        let (begin, end) = (first as usize, (first + size) as usize);
        greatest = word_error(metric.kind, &exact[begin..end], &approx[begin..end]).max(greatest);
    }
    greatest
}
