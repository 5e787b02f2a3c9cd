//! Names of models and signals. Source: the words of BLIF, with the limits of this tool.
ghost use Rattle.std.specs.Prelude.{◌≡◌, ◌≤◌, ◌≢◌, ◌↔◌, ◌∷◌, map, decimal, IsTrue, IfOk, OnOk};
ghost use Rattle.std.specs.List.{range_with_len};
ghost use Rattle.semantics.specs.Net.{IsName, IsNameByte};
ghost use Rattle.net_parts.specs.declared.name.NameRefusal.TheVariants.{OutOfMemory};

use crate::items::{Duplicate, NameList};
use itoa::Buffer;
use std::alloc::{AllocError, Global};
use std::marker::Model;
use thiserror::Error;

/// The most bytes of a name.
const LONGEST: usize = 1023;

/// Why no name was made.
#[derive(Clone, Copy, Debug, Drop, PartialEq, Eq, Error)]
pub enum NameRefusal {
    /// The bytes are not a name.
    #[error("not a name")]
    Bad,
    /// The bytes are a name, and there is no memory for it.
    #[error("out of memory")]
    OutOfMemory,
}

impl From<AllocError> for NameRefusal {
    ghost from_gives = { λ _ e. e ≡ OutOfMemory };

    fn from(_: AllocError) -> NameRefusal {
        NameRefusal::OutOfMemory
    }
}

/// A name of a model, an input or a table.
#[derive(Debug, Drop)]
pub struct Name {
    bytes: Vec<u8>,
}

impl Model for Name {
    ghost use Rattle.std.specs.Prelude.{List, ℕ};
    ghost use Rattle.semantics.specs.Net.{IsName};

    ghost Value = { List ℕ };

    ghost view = { λ a. a.bytes.items };

    ghost invariant = { λ a. IsName a.bytes.items };
}

/// Whether a byte may stand in a name.
fn is_name_byte(byte: u8) -> bool
    ensures { IsTrue result ↔ IsNameByte byte }
{
    byte >= 33 && byte <= 126 && byte != b'#'
}

/// Whether the bytes are a name.
fn is_name(text: &[u8]) -> bool
    ensures { IsTrue result ↔ IsName text.now }
{
    if text.is_empty() || text.len() > LONGEST {
        return false;
    }
    text[text.len() - 1] != b'\\' && text.iter().all(|byte| is_name_byte(*byte))
}

impl Name {
    /// The name of these bytes, which are tested before memory is taken.
    pub fn new(alloc: Global, text: &[u8]) -> Result<Name, NameRefusal>
        ensures ok { IfOk result (λ n. n ≡ text.now) }
        ensures named { OnOk result (IsName text.now) }
        ensures bad { (result ≡ Err NameRefusal.Bad) ↔ (¬ IsName text.now) }
        ensures out_of_memory { result ≡ Err NameRefusal.OutOfMemory → IsName text.now }
    {
        if !is_name(text) {
            return Err(NameRefusal::Bad);
        }
        let bytes = Vec::from_slice(alloc, text)?;
        Ok(Name { bytes })
    }

    /// The name of these bytes, which are known to be a name.
    pub fn known(alloc: Global, text: &[u8]) -> Result<Name, AllocError>
        requires { IsName text.now }
        ensures { IfOk result (λ n. n ≡ text.now) }
    {
        match Name::new(alloc, text) {
            Ok(name) => Ok(name),
            Err(NameRefusal::OutOfMemory) => Err(AllocError),
            Err(NameRefusal::Bad) => unreachable!(),
        }
    }

    /// A letter, and a number in decimal without leading zeros.
    pub fn numbered(alloc: Global, letter: u8, number: u64) -> Result<Name, AllocError>
        requires { IsNameByte letter }
        ensures { IfOk result (λ n. n ≡ letter ∷ decimal number) }
    {
        let mut buffer = Buffer::new();
        let mut bytes = Vec::from_slice(alloc, &[letter])?;
        bytes.extend_from_slice(buffer.format(number).as_bytes())?;
        Ok(Name { bytes })
    }

    /// The bytes of the name.
    pub fn bytes(&self) -> &[u8]
        ensures value { result.now ≡ self.now }
        ensures named { IsName self.now }
    {
        self.bytes.as_slice()
    }

    /// An equal name, on the same allocator.
    pub fn copy(&self) -> Result<Name, AllocError>
        ensures { IfOk result (λ n. n ≡ self.now) }
    {
        let bytes = Vec::from_slice(*self.bytes.allocator(), self.bytes.as_slice())?;
        Ok(Name { bytes })
    }
}

/// The `count` names that are the letter and each number from 0 on, in order.
pub fn numbered_names(alloc: Global, letter: u8, count: u32) -> Result<NameList, AllocError>
    requires { IsNameByte letter }
    ensures { IfOk result (λ names. names ≡ map (λ i. letter ∷ decimal i) (range_with_len 0 count)) }
{
    let mut names = NameList::new(alloc);
    for number in 0..count {
        names.push(Name::numbered(alloc, letter, u64::from(number))?)?;
    }
    Ok(names)
}

impl Duplicate for Name {
    fn duplicate(&self) -> Result<Name, AllocError> {
        self.copy()
    }
}
