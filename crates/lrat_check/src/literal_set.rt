//! The set of literals that are taken for true.
ghost use Rattle.std.specs.Prelude.{◌≡◌, neg_ℤ, false, slice_set, IfOk, OnOk};
ghost use Rattle.std.specs.FinSet as set;
ghost use Rattle.proof_semantics.specs.Logs.{is_false_in};
ghost use Rattle.proof_parts.specs.Literals.{IsLiteral};
ghost use Rattle.lrat_check.specs.Marks.{index_of, Unmarked};

use proof_parts::literal::Literal;
use std::alloc::{AllocError, Global};
use std::collections::HashSet;
use std::marker::Model;

/// The literal of the same variable with the opposite sign.
#[inline(always)]
pub fn negation(literal: Literal) -> Literal
    requires { IsLiteral literal }
    ensures { result ≡ neg_ℤ literal }
{
    -literal
}

/// Where the literal's mark stands.
#[inline(always)]
fn index_of(literal: Literal) -> usize
    ensures value { result ≡ index_of literal }
{
    literal.unsigned_abs() as usize * 2 + (if literal > 0 { 1 } else { 0 })
}

/// Takes the literal's mark back, if it has one.
fn unmark(marks: &mut Vec<bool>, literal: Literal)
    ensures { marks.new.items ≡ slice_set marks.old.items (index_of literal) false }
{
    let index = index_of(literal);
    if index < marks.len() {
        marks[index] = false;
    }
}

fn unmark_all(marks: &mut Vec<bool>, literals: &[Literal])
    ensures { Unmarked marks.old.items marks.new.items literals.now }
{
    for literal in literals {
        unmark(marks, *literal);
    }
}

/// A set of literals that is emptied and filled again for each step. A literal of the variables for which the
/// set was made is marked in place; any other literal is found by its hash, so that no literal of a hostile
/// log costs much memory.
#[derive(Drop)]
pub struct LiteralSet {
    members: Vec<Literal>,
    marks: Vec<bool>,
    apart: HashSet<Literal>,
}

impl Model for LiteralSet {
    ghost use Rattle.std.specs.FinSet as set;
    ghost use Rattle.std.specs.Ordering.{int_cmp};
    ghost use Rattle.std.specs.Coded.{coded_ℤ};
    ghost use Rattle.lrat_check.specs.SetStanding.{Stands};

    ghost Value = { set.FinSet int_cmp };

    ghost coded = { set.code coded_ℤ };

    ghost view = { λ a. set.from_list a.members.items };

    ghost invariant = { Stands };
}

impl LiteralSet {
    /// The empty set, with marks for the literals of the variables up to `variables`.
    pub fn new(alloc: Global, variables: u32) -> Result<LiteralSet, AllocError>
        ensures { IfOk result (λ empty. empty ≡ set.empty) }
    {
        let mut marks = Vec::new(alloc);
        marks.resize(variables as usize * 2 + 2, false)?;
        Ok(LiteralSet {
            members: Vec::new(alloc),
            marks,
            apart: HashSet::new(alloc),
        })
    }

    /// Takes all literals out, in time linear in their number.
    pub fn clear(&mut self)
        ensures { self.new ≡ set.empty }
    {
        unmark_all(&mut self.marks, &self.members);
        self.members.clear();
        self.apart = HashSet::new(*self.members.allocator());
    }

    /// Whether the literal is in the set.
    #[inline(always)]
    pub fn contains(&self, literal: Literal) -> bool
        ensures { result ≡ set.contains self.now literal }
    {
        let index = index_of(literal);
        if index < self.marks.len() {
            self.marks[index]
        } else {
            self.apart.contains(&literal)
        }
    }

    /// Adds a literal.
    #[inline(always)]
    pub fn insert(&mut self, literal: Literal) -> Result<(), AllocError>
        ensures { OnOk result (self.new ≡ set.insert self.old literal) }
    {
        self.members.push(literal)?;
        let index = index_of(literal);
        if index < self.marks.len() {
            self.marks[index] = true;
            return Ok(());
        }
        match self.apart.insert(literal) {
            Ok(_) => Ok(()),
            Err(_) => {
                self.members.pop();
                Err(AllocError)
            }
        }
    }

    /// Whether the literal's negation is in the set.
    #[inline(always)]
    pub fn makes_false(&self, literal: Literal) -> bool
        requires { IsLiteral literal }
        ensures { result ≡ is_false_in self.now literal }
    {
        self.contains(negation(literal))
    }
}
