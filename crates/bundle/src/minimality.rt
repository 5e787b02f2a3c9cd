//! Which moves of a net vectors break. The masks of the net at a block of vectors tell this move by move, and
//! no moved net is made.
ghost use Rattle.std.specs.Prelude.{◌≡◌, ◌↔◌, ◌⊎◌, ◌++◌, [], List, Bool, true, IfOk, OnOk, OnErr, Contains};
ghost use Rattle.std.specs.List.{list_all};
ghost use Rattle.semantics.specs.Net.{input_count};
ghost use Rattle.chain_semantics.specs.Moves.{moves_of};
ghost use Rattle.chain_semantics.specs.Minimality.{IsBrokenBySome};
ghost use Rattle.bundle.specs.Shown.{AreMarks, asked_moves};

use crate::asked::Asked;
use care_masks::growing::GrowingMasks;
use chain_semantics::moves::Move;
use lane_bits::patterns::Patterns;
use net_moves::list::Moves;
use std::alloc::{AllocError, Global};

/// Whether all are marked.
pub(crate) fn are_all(marks: &[bool]) -> bool
    ensures { result ≡ list_all (λ mark. mark) marks.now }
{
    marks.iter().all(|mark| *mark)
}

/// A mark for each move that is to be broken, before the first vector.
pub(crate) fn first_marks(alloc: Global, asked: &Asked) -> Result<Vec<bool>, AllocError>
    ensures { IfOk result (λ marks. AreMarks asked.now [] marks.items) }
{
    let mut marks = Vec::new(alloc);
    let Some(moves) = asked.moves(alloc)? else {
        return Ok(marks);
    };
    let mut left = moves;
    while let Some(_a_move) = left.next() {
        marks.push(false)?;
    }
    Ok(marks)
}

/// Whether the move is broken by vectors before those of the masks, which its mark says, or by one of the
/// vectors of the masks.
fn mark_after(masks: &mut GrowingMasks, a_move: Move, mark: bool) -> Result<bool, AllocError>
    requires { Contains (moves_of masks.old.net) a_move }
    ensures mark { IfOk result (λ after. (after ≡ true) ↔ ((mark ≡ true)
        ⊎ IsBrokenBySome masks.old.metric masks.old.exact masks.old.bound masks.old.net masks.old.vectors
        a_move)) }
    ensures same { masks.new ≡ masks.old }
{
    if mark {
        return Ok(true);
    }
    Ok(masks.breaks(a_move)?.is_some())
}

/// The marks once the vectors of a block were taken too.
fn marks_after(
    alloc: Global,
    asked: &Asked,
    block: &Patterns,
    marks: &[bool],
) -> Result<Vec<bool>, AllocError>
    requires { block.now.inputs ≡ input_count asked.now.exact }
    ensures { IfOk result (λ after. (before : List (List Bool)) → AreMarks asked.now before marks.now
        → AreMarks asked.now (before ++ block.now.vectors) after.items) }
{
    let mut after = Vec::new(alloc);
    let Some(moves) = asked.moves(alloc)? else {
        return Ok(after);
    };
    let mut masks = asked.masks(alloc, block)?;
    let mut left = moves;
    for mark in marks {
        let Some(a_move) = left.next() else {
            return Ok(after);
        };
        after.push(mark_after(&mut masks, a_move, *mark)?)?;
    }
    Ok(after)
}

/// Marks the moves that a block of vectors breaks too. Where all are marked, the block is not looked at.
pub(crate) fn mark_block(
    alloc: Global,
    asked: &Asked,
    block: &Patterns,
    marks: &mut Vec<bool>,
) -> Result<(), AllocError>
    requires { block.now.inputs ≡ input_count asked.now.exact }
    ensures ok { OnOk result ((before : List (List Bool)) → AreMarks asked.now before marks.old.items
        → AreMarks asked.now (before ++ block.now.vectors) marks.new.items) }
    ensures err { OnErr result (marks.new ≡ marks.old) }
{
    if are_all(marks) {
        return Ok(());
    }
    *marks = marks_after(alloc, asked, block, marks)?;
    Ok(())
}
