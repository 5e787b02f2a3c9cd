//! Literals that are joined from left to right.
ghost use Rattle.std.specs.Prelude.{◌≡◌, ◌+◌, ◌-◌, ◌^◌, ◌<◌, ◌≤◌, ◌++◌, length, slice_index_or, All, OnOk};
ghost use Rattle.aiger_semantics.specs.NetCircuit.{joins, joined, marked, row_inputs};

use crate::literal::{Literal, negated};
use aiger_semantics::and_line::AndLine;
use net_core::items::{Items, Signal};
use net_core::mark::Mark;
use std::alloc::AllocError;

/// Adds what a mark asks for of a pin's literal.
fn push_marked(asked: &mut Vec<Literal>, mark: Mark, literal: Literal) -> Result<(), AllocError>
    ensures { OnOk result (asked.new.items ≡ asked.old.items ++ marked mark literal) }
{
    match mark {
        Mark::Zero => {
            asked.push(negated(literal))?;
            Ok(())
        }
        Mark::One => {
            asked.push(literal)?;
            Ok(())
        }
        Mark::Dash => Ok(()),
    }
}

/// Puts the literals that a row asks for into `asked`, in the order of the pins.
pub(crate) fn ask(
    marks: &[Mark],
    pins: &[Signal],
    literals: &[Literal],
    asked: &mut Vec<Literal>,
) -> Result<(), AllocError>
    requires widths { length marks.now ≡ length pins.now }
    requires pins_in { All (λ s. s < length literals.now) pins.now }
    ensures { OnOk result (asked.new.items
        ≡ row_inputs (λ s. slice_index_or literals.now s 0) marks.now pins.now) }
{
    asked.clear();
    for (i, mark) in marks.iter().enumerate() {
        push_marked(asked, *mark, literals[pins[i] as usize])?;
    }
    Ok(())
}

/// The literal of the conjunction of these literals, whose lines have the variables from `next` on.
pub(crate) fn joined(next: u32, literals: &[Literal]) -> Literal
    requires { next + (length literals.now - 1) ≤ 2 ^ 31 }
    ensures { result ≡ joined next literals.now }
{
    let count = literals.len();
    if count == 0 {
        1
    } else if count == 1 {
        literals[0]
    } else {
        2 * (next + (count - 2) as u32)
    }
}

/// Adds the lines of the conjunction of these literals, which have the variables from `next` on.
pub(crate) fn push_joins(
    lines: &mut Items<AndLine>,
    next: u32,
    literals: &[Literal],
) -> Result<(), AllocError>
    requires { next + (length literals.now - 1) ≤ 2 ^ 31 }
    ensures { OnOk result (lines.new ≡ lines.old ++ joins next literals.now) }
{
    let Some((first, rest)) = literals.split_first() else {
        return Ok(());
    };
    let mut left = *first;
    for (i, right) in rest.iter().enumerate() {
        let variable = next + i as u32;
        lines.push(AndLine {
            variable,
            left,
            right: *right,
        })?;
        left = 2 * variable;
    }
    Ok(())
}
