//! What one word of literals counts more than another, as a sum of few literals where that is found.
//!
//! Of a move it is guessed which literals make the difference. What is left of the difference without the
//! guess is rewritten by the adders of both words; where that does not leave nothing, the solver is asked
//! whether it is nothing.
ghost use Rattle.std.specs.Prelude.{◌≡◌, ◌≤◌, IfOk, IsTrue, All, length};
ghost use Rattle.aig_core.specs.Graph.{IsLiteralOf};
ghost use Rattle.aig_core.specs.Grown.{Grows};
ghost use Rattle.semantics.specs.Net.{input_count};
ghost use Rattle.graph_questions.specs.Gaps.{AreLowestOf, IsNothing, IsNothingWhere, IsStep, lowest_weight};

use crate::question::ask_solver;
use aig_core::graph::Aig;
use aig_core::literal::{Literal, constant};
use aig_core::nets::output_literals;
use cdcl_core::answer::Answer;
use literal_sums::finding::Adders;
use literal_sums::reduction::reduce;
use literal_sums::sum::Sum;
use literal_sums::term::Term;
use literal_sums::word::word_of;
use net_core::net::Net;
use progress::progress::Progress;
use std::alloc::{AllocError, Global};

/// The conflicts of the question whether what is left of a guess is nothing.
const GUESS_CONFLICTS: u64 = 10_000;

/// The places of a weight.
pub(crate) const WEIGHT_PLACES: u32 = 32;

/// What the lowest literal of a word of so many places counts.
pub(crate) fn weight_of(places: u32) -> u32
    requires some { 1 ≤ places }
    requires few { places ≤ 31 }
    ensures { result ≡ lowest_weight places }
{
    1u32 << (WEIGHT_PLACES - places)
}

/// The literals of the lowest outputs of a net.
pub(crate) fn low_literals(
    alloc: Global,
    g: &mut Aig,
    net: &Net,
    places: u32,
    inputs: &[Literal],
) -> Result<Vec<Literal>, AllocError>
    requires places { places ≤ length net.now.outputs }
    requires count { length inputs.now ≡ input_count net.now }
    requires within { All (IsLiteralOf g.old) inputs.now }
    ensures grows { Grows g.old g.new }
    ensures low { IfOk result (λ low. AreLowestOf g.new net.now places inputs.now low.items) }
{
    let all = output_literals(alloc, g, net, inputs)?;
    Ok(all[..places as usize].to_vec(alloc)?)
}

/// The literal that is true where one of a word's literals is.
fn some_of(g: &mut Aig, word: &[Literal]) -> Result<Literal, AllocError>
    requires within { All (IsLiteralOf g.old) word.now }
    ensures grows { Grows g.old g.new }
    ensures some { IfOk result (IsNothingWhere g.new word.now) }
{
    let mut some = constant(false);
    for literal in word {
        some = g.or(some, *literal)?;
    }
    Ok(some)
}

/// Whether a sum counts nothing at every input vector, as far as adders and a few conflicts show. What is
/// left of it is of no use then.
fn is_nothing<P: Progress>(
    alloc: Global,
    g: &mut Aig,
    adders: &mut Adders,
    sum: &mut Sum,
    places: u32,
    progress: &mut P,
) -> Result<bool, AllocError>
    requires few { places ≤ 31 }
    ensures grows { Grows g.old g.new }
    ensures nothing { IfOk result (λ is. IsTrue is → IsNothing g.new sum.old) }
{
    reduce(g, adders, sum)?;
    if sum.is_nothing() {
        return Ok(true);
    }
    let Some(word) = word_of(alloc, g, sum, WEIGHT_PLACES - places)? else {
        return Ok(false);
    };
    let some = some_of(g, &word)?;
    g.values();
    match ask_solver(alloc, g, some, GUESS_CONFLICTS, progress)? {
        Answer::Refuted(_) => Ok(true),
        _ => Ok(false),
    }
}

/// What one word counts more than another, and whether it is what was guessed.
#[derive(Drop)]
pub(crate) struct Step {
    pub sum: Sum,
    pub is_guess: bool,
}

/// A guess of what one word counts more than another, where it is shown to be right, or the difference of
/// both words as it is.
pub(crate) fn step_of<P: Progress>(
    alloc: Global,
    g: &mut Aig,
    adders: &mut Adders,
    from: &[Literal],
    to: &[Literal],
    places: u32,
    guess: &[Term],
    progress: &mut P,
) -> Result<Step, AllocError>
    requires some { 1 ≤ places }
    requires few { places ≤ 31 }
    ensures grows { Grows g.old g.new }
    ensures step { IfOk result (λ step. IsStep g.new places from.now to.now step.sum) }
{
    let weight = weight_of(places);
    let mut whole = Sum::new(alloc);
    whole.add_word(from, weight)?;
    whole.take_word(to, weight)?;
    let mut rest = whole.copy(alloc)?;
    rest.take_all(guess)?;
    if !is_nothing(alloc, g, adders, &mut rest, places, progress)? {
        return Ok(Step {
            sum: whole,
            is_guess: false,
        });
    }
    let mut found = Sum::new(alloc);
    found.add_all(guess)?;
    Ok(Step {
        sum: found,
        is_guess: true,
    })
}
