//! The names of inputs and outputs: their symbols, or a letter and a place. Source: this tool's own.
ghost use Rattle.std.specs.Prelude.{◌≡◌, ◌<◌, ◌^◌, List, length, map, slice_index_or, IfOk};
ghost use Rattle.std.specs.List.{range_with_len};
ghost use Rattle.semantics.specs.Net.{IsNameByte};
ghost use Rattle.aiger_semantics.specs.CircuitLines.{Symbol, names_at};
ghost use Rattle.aiger_text.specs.SymbolTexts.{AreTextsOf, name_or};
ghost use Rattle.text_words.specs.Slices.{texts};

use net_core::items::NameList;
use net_core::name::{Name, NameRefusal};
use std::alloc::{AllocError, Global};

/// The text where it is a name, else the letter and the place.
fn name_or(alloc: Global, letter: u8, place: u32, text: &[u8]) -> Result<Name, AllocError>
    requires { IsNameByte letter }
    ensures { IfOk result (λ name. name ≡ name_or letter place text.now) }
{
    match Name::new(alloc, text) {
        Ok(name) => Ok(name),
        Err(NameRefusal::Bad) => Name::numbered(alloc, letter, u64::from(place)),
        Err(NameRefusal::OutOfMemory) => Err(AllocError),
    }
}

/// The names of the places that have these texts.
pub(crate) fn place_names(
    alloc: Global,
    letter: u8,
    given: &[&[u8]],
) -> Result<NameList, AllocError>
    requires letter { IsNameByte letter }
    requires few { length given.now < 2 ^ 32 }
    ensures { (symbols : List Symbol) → AreTextsOf symbols letter (length given.now) (texts given.now)
        → IfOk result (λ names. names ≡ names_at symbols letter (length given.now)) }
{
    let mut names = NameList::new(alloc);
    for (place, text) in given.iter().enumerate() {
        names.push(name_or(alloc, letter, place as u32, text)?)?;
    }
    Ok(names)
}
