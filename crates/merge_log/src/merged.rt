//! Which signals were made equal, and by which clauses.
ghost use Rattle.std.specs.Prelude.{◌≡◌, ℕ, ◌+◌, ◌<◌, ◌^◌, length, slice_set, IfOk, OnOk};
ghost use Rattle.proof_semantics.specs.NetClauses.{literal_at};
ghost use Rattle.merge_log.specs.Chains.{first_of, id_of, implied, carried, to_first, from_first};

use crate::hint_chain::HintChain;
use net_core::items::Signal;
use std::alloc::{AllocError, Global};
use std::marker::Model;

/// For each signal the first signal to which it was made equal, or itself where there is none, and the id of
/// the first of the two clauses that make them equal.
#[derive(Drop)]
pub(crate) struct Merged {
    firsts: Vec<Signal>,
    ids: Vec<u64>,
}

impl Model for Merged {
    ghost use Rattle.std.specs.Prelude.{◌≡◌, ◌<◌, ◌^◌, length, All};
    ghost use Rattle.merge_log.specs.Chains.{MergedValue};

    ghost Value = { MergedValue };

    ghost view = { λ a. record { firsts = a.firsts.items; ids = a.ids.items } };

    ghost invariant = { λ a. (length a.ids.items ≡ length a.firsts.items) × (length a.firsts.items < 2 ^ 31)
        × All (λ f. f < length a.firsts.items) a.firsts.items × All (λ id. id < 2 ^ 62) a.ids.items };
}

impl Merged {
    /// Of `signals` signals, each is equal to itself alone.
    pub(crate) fn new(alloc: Global, signals: u32) -> Result<Merged, AllocError>
        requires { signals < 2 ^ 31 }
        ensures count { IfOk result (λ m. length m.firsts ≡ signals) }
        ensures alone { IfOk result (λ m. (s : ℕ) → first_of m s ≡ s) }
    {
        let mut firsts = Vec::new(alloc);
        for s in 0..signals {
            firsts.push(s)?;
        }
        let ids = vec![in alloc; 0; signals as usize]?;
        Ok(Merged { firsts, ids })
    }

    /// The first signal to which this signal was made equal, or this signal itself.
    pub(crate) fn first(&self, s: Signal) -> Signal
        requires { s < length self.now.firsts }
        ensures value { result ≡ first_of self.now s }
        ensures within { result < length self.now.firsts }
        ensures few { length self.now.firsts < 2 ^ 31 }
    {
        self.firsts[s as usize]
    }

    /// The id of the first of the two clauses that made this signal equal to another.
    fn id(&self, s: Signal) -> u64
        requires { s < length self.now.firsts }
        ensures value { result ≡ id_of self.now s }
        ensures few { result < 2 ^ 62 }
    {
        self.ids[s as usize]
    }

    /// Notes that signal s was made equal to signal u, by the clause with this id and the next one.
    pub(crate) fn merge(&mut self, s: Signal, u: Signal, id: u64)
        requires s_within { s < length self.old.firsts }
        requires u_within { u < length self.old.firsts }
        requires few { id < 2 ^ 62 }
        ensures merged { self.new
            ≡ record { firsts = slice_set self.old.firsts s u; ids = slice_set self.old.ids s id } }
        ensures room { length self.old.ids ≡ length self.old.firsts }
    {
        self.firsts[s as usize] = u;
        self.ids[s as usize] = id;
    }

    /// Adds the hint `id`, whose clause gives signal p this value.
    pub(crate) fn imply(
        &self,
        chain: &mut HintChain,
        id: u64,
        p: Signal,
        sign: bool,
    ) -> Result<(), AllocError>
        requires { p < length self.now.firsts }
        ensures { OnOk result (chain.new ≡ implied chain.old id (literal_at p sign)) }
    {
        let _first = self.first(p);
        chain.imply(id, p, sign)
    }

    /// Adds the hint by which the first signal to which signal p was made equal has this value, since p has
    /// it.
    fn follow_to_first(
        &self,
        chain: &mut HintChain,
        p: Signal,
        sign: bool,
    ) -> Result<(), AllocError>
        requires { p < length self.now.firsts }
        ensures { OnOk result (chain.new ≡ to_first chain.old self.now p sign) }
    {
        let first = self.first(p);
        if first == p {
            return Ok(());
        }
        chain.imply(self.id(p) + u64::from(!sign), first, sign)
    }

    /// Adds the hint by which signal q has this value, since the first signal to which q was made equal has
    /// it.
    fn follow_from_first(
        &self,
        chain: &mut HintChain,
        q: Signal,
        sign: bool,
    ) -> Result<(), AllocError>
        requires { q < length self.now.firsts }
        ensures { OnOk result (chain.new ≡ from_first chain.old self.now q sign) }
    {
        if self.first(q) == q {
            return Ok(());
        }
        chain.imply(self.id(q) + u64::from(sign), q, sign)
    }

    /// Adds the hints by which signal q has this value, since signal p has it; both were made equal to one
    /// first signal.
    pub(crate) fn carry(
        &self,
        chain: &mut HintChain,
        p: Signal,
        q: Signal,
        sign: bool,
    ) -> Result<(), AllocError>
        requires p_within { p < length self.now.firsts }
        requires q_within { q < length self.now.firsts }
        ensures { OnOk result (chain.new ≡ carried chain.old self.now p q sign) }
    {
        if p == q {
            return Ok(());
        }
        self.follow_to_first(chain, p, sign)?;
        self.follow_from_first(chain, q, sign)
    }

    /// Adds the hint `id`, whose clause gives signal p this value, and the hints by which signal q has it;
    /// both were made equal to one first signal.
    pub(crate) fn imply_both(
        &self,
        chain: &mut HintChain,
        id: u64,
        p: Signal,
        q: Signal,
        sign: bool,
    ) -> Result<(), AllocError>
        requires p_within { p < length self.now.firsts }
        requires q_within { q < length self.now.firsts }
        ensures { OnOk result (chain.new
            ≡ carried (implied chain.old id (literal_at p sign)) self.now p q sign) }
    {
        self.imply(chain, id, p, sign)?;
        self.carry(chain, p, q, sign)
    }
}
