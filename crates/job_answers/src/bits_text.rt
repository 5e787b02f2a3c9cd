//! The text of an input vector.
use std::fmt;

/// Truth values as digits, the first one first.
#[derive(Drop)]
pub(crate) struct BitsText<'a>(pub(crate) &'a [bool]);

impl<'a> fmt::Display for BitsText<'a> {
    ghost use Rattle.std.specs.Prelude.{Some};
    ghost use Rattle.semantics.specs.Texts.{bits_word};

    ghost output = { λ text. Some (bits_word text.0.now) };

    fn fmt<W: fmt::Write>(&self, f: &mut fmt::Formatter<W>) -> fmt::Result {
        for bit in self.0 {
            f.write_str(if *bit { "1" } else { "0" })?;
        }
        Ok(())
    }
}
