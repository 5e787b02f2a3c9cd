//! Words as names.
ghost use Rattle.std.specs.Prelude.{◌≡◌, IfOk, All};
ghost use Rattle.semantics.specs.Net.{IsName};
ghost use Rattle.text_words.specs.Slices.{texts};

use net_core::items::{Items, NameList};
use net_core::name::Name;
use std::alloc::{AllocError, Global};

/// The names that words are known to be.
pub fn name_list(alloc: Global, words: &[&[u8]]) -> Result<NameList, AllocError>
    requires { All IsName (texts words.now) }
    ensures { IfOk result (λ names. names ≡ texts words.now) }
{
    let mut names = Items::new(alloc);
    for word in words {
        names.push(Name::known(alloc, word)?)?;
    }
    Ok(names)
}
