//! The names of signals, numbered in order, with a map from names to numbers.
ghost use Rattle.std.specs.Prelude.{◌≡◌, ◌<◌, ◌+◌, ◌^◌, true, not, [], ◌∷◌, ◌++◌, Result, None, Some, IfOk};
ghost use Rattle.std.specs.Prelude.{OnOk, IfErr, IfSome, All, length, map, bytes_eq, position};
ghost use Rattle.semantics.specs.Net.{IsName, NetValue};
ghost use Rattle.semantics.specs.Refusals.{has_name, first_doubled};
ghost use Rattle.blif_semantics.specs.Reading.{Refusal, doubled, undriven, unless_refused, signal_named};
ghost use Rattle.blif_text.specs.Refusals.{Tells};
ghost use Rattle.blif_text.specs.Names.{place_of, first_unknown};
ghost use Rattle.text_words.specs.Slices.{texts};

use crate::refusal::BlifRefusal;
use net_core::items::{Items, Signal, SignalList};
use net_core::name::Name;
use numbered_keys::keys::NumberedKeys;
use std::alloc::{AllocError, Global};
use std::marker::Model;

/// Names that differ, in order. A name is found by comparisons with a few of them.
#[derive(Drop)]
pub struct Names<'a> {
    names: NumberedKeys<&'a [u8]>,
}

impl<'a> Model for Names<'a> {
    ghost use Rattle.std.specs.Prelude.{List, ◌<◌, ◌^◌, length};
    ghost use Rattle.semantics.specs.Texts.{Bytes};
    ghost use Rattle.text_words.specs.Slices.{texts};

    ghost Value = { List Bytes };

    ghost view = { λ a. texts a.names };

    ghost invariant = { λ a. length a.names < 2 ^ 31 };
}

impl<'a> Names<'a> {
    fn new(alloc: Global) -> Names<'a>
        ensures { result ≡ [] }
    {
        Names {
            names: NumberedKeys::new(alloc),
        }
    }

    /// Adds a name, if it is new.
    fn add(&mut self, name: &'a [u8]) -> Result<bool, AllocError>
        requires { length self.old + 1 < 2 ^ 31 }
        ensures new { IfOk result (λ b. b ≡ not (has_name self.old name.now)) }
        ensures added { IfOk result (λ b. b ≡ true → self.new ≡ self.old ++ name.now ∷ []) }
    {
        let is_new = self.names.add(name)?;
        Ok(is_new)
    }

    /// These names, or the refusal of the first that stands a second time.
    pub fn of(alloc: Global, names: &[&'a [u8]]) -> Result<Names<'a>, BlifRefusal>
        requires named { All IsName (texts names.now) }
        requires few { length names.now < 2 ^ 31 }
        ensures ok { IfOk result (λ all. all ≡ texts names.now) }
        ensures differ { OnOk result (first_doubled (texts names.now) ≡ None) }
        ensures err { IfErr result (λ told. (rest : Result NetValue Refusal)
            → Tells told (unless_refused (first_doubled (texts names.now)) doubled rest)) }
    {
        let mut all = Names::new(alloc);
        for name in names {
            if !all.add(name)? {
                let name = Name::known(alloc, name)?;
                return Err(BlifRefusal::Doubled { name });
            }
        }
        Ok(all)
    }

    /// The number of a name.
    fn number(&self, name: &[u8]) -> Option<Signal>
        ensures { result ≡ place_of self.now name.now }
    {
        let at = self.names.places().get(name)?;
        Some(*at as u32)
    }

    /// The numbers of these names, or the refusal of the first that is none of these.
    pub fn numbers(&self, words: &[&[u8]]) -> Result<SignalList, BlifRefusal>
        requires { All IsName (texts words.now) }
        ensures ok { IfOk result (λ signals. signals ≡ map (signal_named self.now) (texts words.now)) }
        ensures known { OnOk result (first_unknown self.now (texts words.now) ≡ None) }
        ensures err { IfErr result (λ told. (rest : Result NetValue Refusal)
            → Tells told (unless_refused (first_unknown self.now (texts words.now)) undriven rest)) }
    {
        let alloc = *self.names.allocator();
        let mut signals = Items::new(alloc);
        for word in words {
            let Some(signal) = self.number(word) else {
                let name = Name::known(alloc, word)?;
                return Err(BlifRefusal::Undriven { name });
            };
            signals.push(signal)?;
        }
        Ok(signals)
    }
}
