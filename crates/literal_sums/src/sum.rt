//! Sums of literals of a hashed graph, each with a weight, modulo 2^32.
ghost use Rattle.std.specs.Prelude.{◌≡◌, ◌+◌, ◌%◌, ◌<◌, [], length, IfOk, IsTrue};
ghost use Rattle.semantics.specs.Value.{Assignment};
ghost use Rattle.literal_sums.specs.declared.term.Term.{Term as ATerm};
ghost use Rattle.literal_sums.specs.Sums.{AgreeAsSums, CountsMore, HasMore, sum_value, term_at};
ghost use Rattle.literal_sums.specs.Sums.{weight_in, word_value};
ghost use Rattle.literal_sums.specs.Adders.{HasSwapped};

use crate::adder::{Adder, is_adder};
use crate::term::Term;
use aig_core::graph::Aig;
use aig_core::literal::{Literal, constant, is_negative, opposite};
use std::alloc::{AllocError, Global};
use std::marker::Model;

/// A sum of literals, each counted by its weight where it is true. No literal stands in it twice, and beside
/// the constant none that is turned over. It is of no use once memory has failed.
#[derive(Drop)]
pub struct Sum {
    terms: Vec<Term>,
}

impl Model for Sum {
    ghost use Rattle.std.specs.Prelude.{List};
    ghost use Rattle.literal_sums.specs.declared.term.Term.{Term as ATerm};

    ghost Value = { List ATerm };

    ghost view = { λ a. a.terms.items };
}

/// The weight that takes away what this one counts, modulo 2^32.
pub fn negative(weight: u32) -> u32
    ensures { (result + weight) % 4294967296 ≡ 0 }
{
    0u32.wrapping_sub(weight)
}

/// Twice a weight, modulo 2^32.
pub fn doubled(weight: u32) -> u32
    ensures { result ≡ (weight + weight) % 4294967296 }
{
    weight.wrapping_add(weight)
}

impl Sum {
    /// The sum of nothing.
    pub fn new(alloc: Global) -> Sum
        ensures { result ≡ [] }
    {
        Sum {
            terms: Vec::new(alloc),
        }
    }

    /// The terms, in no order.
    pub fn terms(&self) -> &[Term]
        ensures { result.now ≡ self.now }
    {
        &self.terms
    }

    /// Whether nothing is counted.
    pub fn is_nothing(&self) -> bool
        ensures nothing { IsTrue result → (v : Assignment) → sum_value v self.now ≡ 0 }
        ensures empty { self.now ≡ [] → IsTrue result }
    {
        self.terms.is_empty()
    }

    /// The weight of a literal that is not turned over.
    pub fn weight(&self, literal: Literal) -> u32
        ensures { result ≡ weight_in literal self.now }
    {
        for term in &self.terms {
            if term.literal == literal {
                return term.weight;
            }
        }
        0
    }

    /// The same sum once more.
    pub fn copy(&self, alloc: Global) -> Result<Sum, AllocError>
        ensures { IfOk result (λ sum. sum ≡ self.now) }
    {
        Ok(Sum {
            terms: self.terms.to_vec(alloc)?,
        })
    }

    /// The index of the term of a literal, or how many terms there are.
    fn place(&self, literal: Literal) -> usize
        ensures { (t : ATerm) → result < length self.now → (term_at self.now result t).literal ≡ literal }
    {
        for (i, term) in self.terms.iter().enumerate() {
            if term.literal == literal {
                return i;
            }
        }
        self.terms.len()
    }

    /// Counts the literal of a term by this weight more.
    fn change(&mut self, at: usize, weight: u32)
        requires { at < length self.old }
        ensures { (t : ATerm) → HasMore (term_at self.old at t).literal weight self.old self.new }
    {
        let weight = self.terms[at].weight.wrapping_add(weight);
        if weight == 0 {
            self.terms.swap_remove(at);
        } else {
            self.terms[at].weight = weight;
        }
    }

    /// Counts a literal that is not turned over, or the constant true.
    fn count(&mut self, literal: Literal, weight: u32) -> Result<(), AllocError>
        ensures { IfOk result (λ _. HasMore literal weight self.old self.new) }
    {
        let at = self.place(literal);
        if at < self.terms.len() {
            self.change(at, weight);
            return Ok(());
        }
        if weight == 0 {
            return Ok(());
        }
        self.terms.push(Term { literal, weight })?;
        Ok(())
    }

    /// Counts a literal too.
    pub fn add(&mut self, literal: Literal, weight: u32) -> Result<(), AllocError>
        ensures { IfOk result (λ _. HasMore literal weight self.old self.new) }
    {
        if literal == constant(false) {
            return Ok(());
        }
        if literal == constant(true) || !is_negative(literal) {
            return self.count(literal, weight);
        }
        self.count(constant(true), weight)?;
        self.count(opposite(literal), negative(weight))
    }

    /// Takes away what a literal counts by this weight.
    pub fn take(&mut self, literal: Literal, weight: u32) -> Result<(), AllocError>
        ensures { IfOk result (λ _. HasMore literal weight self.new self.old) }
    {
        self.add(literal, negative(weight))
    }

    /// Counts all terms too.
    pub fn add_all(&mut self, terms: &[Term]) -> Result<(), AllocError>
        ensures { IfOk result (λ _. CountsMore (λ v. sum_value v terms.now) self.old self.new) }
    {
        for term in terms {
            self.add(term.literal, term.weight)?;
        }
        Ok(())
    }

    /// Takes all terms away.
    pub fn take_all(&mut self, terms: &[Term]) -> Result<(), AllocError>
        ensures { IfOk result (λ _. CountsMore (λ v. sum_value v terms.now) self.new self.old) }
    {
        for term in terms {
            self.take(term.literal, term.weight)?;
        }
        Ok(())
    }

    /// Counts the literals of a word too, the lowest by this weight and each behind it by twice as much.
    pub fn add_word(&mut self, word: &[Literal], weight: u32) -> Result<(), AllocError>
        ensures { IfOk result (λ _. CountsMore (λ v. word_value v weight word.now) self.old self.new) }
    {
        let mut each = weight;
        for literal in word {
            self.add(*literal, each)?;
            each = doubled(each);
        }
        Ok(())
    }

    /// Takes away what the literals of a word count, the lowest by this weight and each behind it by twice as
    /// much.
    pub fn take_word(&mut self, word: &[Literal], weight: u32) -> Result<(), AllocError>
        ensures { IfOk result (λ _. CountsMore (λ v. word_value v weight word.now) self.new self.old) }
    {
        self.add_word(word, negative(weight))
    }

    /// Counts the three inputs of an adder by this weight, and takes away its sum by this weight and its
    /// carry by twice as much.
    fn swap_adder(&mut self, adder: &Adder, weight: u32) -> Result<(), AllocError>
        ensures { IfOk result (λ _. HasSwapped adder.now weight self.old self.new) }
    {
        self.add(adder.first, weight)?;
        self.add(adder.second, weight)?;
        self.add(adder.third, weight)?;
        self.take(adder.sum, weight)?;
        self.take(adder.carry, doubled(weight))
    }

    /// Where these five literals are seen to be an adder, counts its three inputs by this weight, and takes
    /// away its sum by this weight and its carry by twice as much. Says whether they are; if not, the sum
    /// stays.
    pub fn go_through(&mut self, g: &Aig, adder: &Adder, weight: u32) -> Result<bool, AllocError>
        ensures same { IfOk result (λ _. AgreeAsSums g.now self.new self.old) }
        ensures stays { IfOk result (λ done. ¬ IsTrue done → self.new ≡ self.old) }
    {
        if !is_adder(g, adder) {
            return Ok(false);
        }
        self.swap_adder(adder, weight)?;
        Ok(true)
    }
}
