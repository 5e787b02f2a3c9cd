//! Bits as digits, one byte a bit.
ghost use Rattle.std.specs.Prelude.{◌≡◌};
ghost use Rattle.semantics.specs.Texts.{bit_byte};

/// The digit of a bit.
pub fn bit_byte(bit: bool) -> u8
    ensures { result ≡ bit_byte bit }
{
    if bit { b'1' } else { b'0' }
}
