//! Digits that say bits, one byte a bit.
ghost use Rattle.std.specs.Prelude.{◌≡◌, IfOk};
ghost use Rattle.std.specs.List.{list_all};
ghost use Rattle.bundle_texts.specs.Pieces.{is_bit_digit, bits_in};

use net_core::items::Bits;
use std::alloc::{AllocError, Global};

/// Whether the byte is the digit of a bit.
pub fn is_bit_digit(byte: u8) -> bool
    ensures { result ≡ is_bit_digit byte }
{
    byte == b'0' || byte == b'1'
}

/// Whether all bytes are the digits of bits.
pub fn are_bit_digits(digits: &[u8]) -> bool
    ensures { result ≡ list_all is_bit_digit digits.now }
{
    digits.iter().all(|d| *d == b'0' || *d == b'1')
}

/// The bits that digits say.
pub fn bits_of(alloc: Global, digits: &[u8]) -> Result<Bits, AllocError>
    ensures { IfOk result (λ bits. bits ≡ bits_in digits.now) }
{
    let mut bits = Bits::new(alloc);
    for digit in digits {
        bits.push(*digit == b'1')?;
    }
    Ok(bits)
}
