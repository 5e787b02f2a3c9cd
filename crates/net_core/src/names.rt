//! The names of signals, and the first that stands a second time.
ghost use Rattle.std.specs.Prelude.{◌≡◌, ◌<◌, ◌+◌, ◌^◌, true, not, [], ◌∷◌, ◌++◌, map, length};
ghost use Rattle.std.specs.Prelude.{slice_index_or, None, Some, IfOk, MatchOption};
ghost use Rattle.semantics.specs.Refusals.{has_name, first_doubled};

use net_parts::items::{NameList, TableList};
use net_parts::name::Name;
use net_parts::table::Table;
use numbered_keys::keys::NumberedKeys;
use std::alloc::{AllocError, Global};
use std::marker::Model;

/// Names that differ, in order.
#[derive(Drop)]
struct NameSet<'a> {
    names: NumberedKeys<&'a [u8]>,
}

impl<'a> Model for NameSet<'a> {
    ghost use Rattle.std.specs.Prelude.{List, map};
    ghost use Rattle.semantics.specs.Texts.{Bytes};

    ghost Value = { List Bytes };

    ghost view = { λ a. map (λ key. key.now) a.names };
}

impl<'a> NameSet<'a> {
    fn new(alloc: Global) -> NameSet<'a>
        ensures { result ≡ [] }
    {
        NameSet {
            names: NumberedKeys::new(alloc),
        }
    }

    /// Adds a name, if it is new.
    fn add(&mut self, name: &'a Name) -> Result<bool, AllocError>
        ensures new { IfOk result (λ b. b ≡ not (has_name self.old name.now)) }
        ensures added { IfOk result (λ b. b ≡ true → self.new ≡ self.old ++ name.now ∷ []) }
    {
        let is_new = self.names.add(name.bytes())?;
        Ok(is_new)
    }
}

/// The name of signal `s`.
pub(crate) fn name_at<'a>(inputs: &'a [Name], tables: &'a [Table], s: usize) -> &'a Name
    requires { s < length inputs.now + length tables.now }
    ensures { result.now ≡ slice_index_or (inputs.now ++ map (λ t. t.name) tables.now) s [] }
{
    if s < inputs.len() {
        &inputs[s]
    } else {
        tables[s - inputs.len()].name()
    }
}

/// The first name that stands a second time, the inputs' names before the tables'.
pub(crate) fn first_doubled<'a>(
    alloc: Global,
    inputs: &'a NameList,
    tables: &'a TableList,
) -> Result<Option<&'a Name>, AllocError>
    requires { length inputs.now + length tables.now < 2 ^ 31 }
    ensures { IfOk result (λ found. MatchOption found
        (first_doubled (inputs.now ++ map (λ t. t.name) tables.now) ≡ None)
        (λ name. first_doubled (inputs.now ++ map (λ t. t.name) tables.now) ≡ Some name.now)) }
{
    let (inputs, tables) = (inputs.as_slice(), tables.as_slice());
    let mut seen = NameSet::new(alloc);
    for s in 0..inputs.len() + tables.len() {
        let name = name_at(inputs, tables, s);
        if !seen.add(name)? {
            return Ok(Some(name));
        }
    }
    Ok(None)
}
