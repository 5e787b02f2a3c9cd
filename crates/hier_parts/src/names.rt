//! Names in order, found by themselves.
ghost use Rattle.std.specs.Prelude.{◌≡◌, not, [], IfOk, OnOk, OnErr};
ghost use Rattle.std.specs.Option.{option_map};
ghost use Rattle.semantics.specs.Texts.{Bytes};
ghost use Rattle.semantics.specs.Refusals.{has_name, first_doubled};
ghost use Rattle.blif_text.specs.Names.{place_of};
ghost use Rattle.text_words.specs.Slices.{texts};
ghost use Rattle.hier_parts.specs.Sets.{with_name, with_names};

use numbered_keys::keys::NumberedKeys;
use std::alloc::{AllocError, Global};
use std::marker::Model;

/// Names that differ, in the order in which they were added. A name is found by comparisons with a few of
/// them.
#[derive(Drop)]
pub struct Names<'a> {
    names: NumberedKeys<&'a [u8]>,
}

impl<'a> Model for Names<'a> {
    ghost use Rattle.std.specs.Prelude.{List};
    ghost use Rattle.semantics.specs.Texts.{Bytes};
    ghost use Rattle.text_words.specs.Slices.{texts};

    ghost Value = { List Bytes };

    ghost view = { λ a. texts a.names };
}

impl<'a> Names<'a> {
    /// No names. It takes no memory.
    pub fn new(alloc: Global) -> Names<'a>
        ensures { result ≡ [] }
    {
        Names {
            names: NumberedKeys::new(alloc),
        }
    }

    /// Where the name stands.
    pub fn place(&self, name: &[u8]) -> Option<usize>
        ensures { result ≡ place_of self.now name.now }
    {
        self.names.places().get(name).copied()
    }

    /// Whether the name was added.
    pub fn contains(&self, name: &[u8]) -> bool
        ensures { result ≡ has_name self.now name.now }
    {
        self.names.places().contains_key(name)
    }

    /// Adds a name, if it is new. Without memory for it nothing changes.
    pub fn add(&mut self, name: &'a [u8]) -> Result<bool, AllocError>
        ensures new { IfOk result (λ b. b ≡ not (has_name self.old name.now)) }
        ensures added { OnOk result (self.new ≡ with_name self.old name.now) }
        ensures err { OnErr result (self.new ≡ self.old) }
    {
        let is_new = self.names.add(name)?;
        Ok(is_new)
    }
}

/// The first of the names that stands a second time.
pub fn first_doubled<'a>(alloc: Global, names: &[&'a [u8]]) -> Result<Option<&'a [u8]>, AllocError>
    ensures { IfOk result (λ o. option_map (λ w. w.now) o ≡ first_doubled (texts names.now)) }
{
    let mut all = Names::new(alloc);
    for name in names {
        if !all.add(name)? {
            return Ok(Some(*name));
        }
    }
    Ok(None)
}

/// The set of these names.
pub fn set_of<'a>(alloc: Global, names: &[&'a [u8]]) -> Result<Names<'a>, AllocError>
    ensures is { IfOk result (λ all. all ≡ with_names [] (texts names.now)) }
    ensures holds { IfOk result
        (λ all. (word : Bytes) → has_name all word ≡ has_name (texts names.now) word) }
{
    let mut all = Names::new(alloc);
    for name in names {
        all.add(name)?;
    }
    Ok(all)
}
