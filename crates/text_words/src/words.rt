//! Words between blanks, as slices of their line.
ghost use Rattle.std.specs.Prelude.{◌≡◌, IfOk};
ghost use Rattle.blif_semantics.specs.Lines.{is_blank, words_of};
ghost use Rattle.text_words.specs.Slices.{texts};

use std::alloc::{AllocError, Global};

/// A space, a tab or a CR.
pub fn is_blank(byte: u8) -> bool
    ensures { result ≡ is_blank byte }
{
    matches!(byte, b' ' | b'\t' | b'\r')
}

/// The words between blanks, in their order.
pub fn words_of<'a>(alloc: Global, line: &'a [u8]) -> Result<Vec<&'a [u8]>, AllocError>
    ensures { IfOk result (λ v. texts v.items ≡ words_of line.now) }
{
    line.split(|b| is_blank(*b))
        .filter(|w| !w.is_empty())
        .collect(alloc)
}
