//! A row of marks, one for each pin of its table. Source: BLIF's cover lines.
ghost use Rattle.std.specs.Prelude.{◌≡◌, ◌<◌, ◌==◌, [], ◌∷◌, ◌++◌, length, slice_index_or, IfOk, OnOk, OnErr};

use crate::items::{Duplicate, Items, RowList};
use crate::mark::Mark;
use smallvec::SmallVec;
use std::alloc::{AllocError, Global};
use std::marker::Model;

/// The marks of a row; most rows are short and take no memory of their own.
#[derive(Drop)]
pub struct Row {
    marks: SmallVec<Mark, 16>,
}

impl Model for Row {
    ghost use Rattle.std.specs.Prelude.{List};
    ghost use Rattle.semantics.specs.declared.mark.Mark.{Mark};

    ghost Value = { List Mark };

    ghost view = { λ a. a.marks.items };
}

impl Row {
    /// The row without marks, which takes no memory.
    pub fn new(alloc: Global) -> Row
        ensures { result ≡ [] }
    {
        Row {
            marks: SmallVec::new(alloc),
        }
    }

    /// The row of these marks.
    pub fn from_slice(alloc: Global, marks: &[Mark]) -> Result<Row, AllocError>
        ensures { IfOk result (λ r. r ≡ marks.now) }
    {
        let marks = SmallVec::from_slice(alloc, marks)?;
        Ok(Row { marks })
    }

    /// Adds a mark at the end.
    pub fn push(&mut self, mark: Mark) -> Result<(), AllocError>
        ensures ok { OnOk result (self.new ≡ self.old ++ mark ∷ []) }
        ensures err { OnErr result (self.new ≡ self.old) }
    {
        self.marks.push(mark)?;
        Ok(())
    }

    /// How many marks the row has.
    pub fn len(&self) -> usize
        ensures { result ≡ length self.now }
    {
        self.marks.as_slice().len()
    }

    /// Whether the row has no marks, like the row of a constant.
    pub fn is_empty(&self) -> bool
        ensures { result ≡ (length self.now == 0) }
    {
        self.marks.as_slice().is_empty()
    }

    /// The mark of pin `i`, from 0.
    pub fn get(&self, i: usize) -> &Mark
        requires { i < length self.now }
        ensures { result.now ≡ slice_index_or self.now i result.now }
    {
        &self.marks.as_slice()[i]
    }

    /// The marks, one for each pin.
    pub fn as_slice(&self) -> &[Mark]
        ensures { result.now ≡ self.now }
    {
        self.marks.as_slice()
    }

    /// An equal row, on the same allocator.
    pub fn copy(&self) -> Result<Row, AllocError>
        ensures { IfOk result (λ r. r ≡ self.now) }
    {
        Row::from_slice(*self.marks.allocator(), self.marks.as_slice())
    }
}

impl Duplicate for Row {
    fn duplicate(&self) -> Result<Row, AllocError> {
        self.copy()
    }
}

/// Rows of N marks as a list.
pub fn rows_of<const N: usize>(alloc: Global, rows: &[[Mark; N]]) -> Result<RowList, AllocError>
    ensures { IfOk result (λ list. list ≡ rows.now) }
{
    let mut list = Items::new(alloc);
    for row in rows {
        list.push(Row::from_slice(alloc, row)?)?;
    }
    Ok(list)
}
