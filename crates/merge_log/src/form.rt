//! The forms of tables, each of which has a number.
ghost use Rattle.std.specs.Prelude.{◌≡◌, ◌<◌, ◌++◌, [], map, flat_map, length, All, IfOk, OnOk};
ghost use Rattle.merge_log.specs.Chains.{first_of, asked};
ghost use Rattle.merge_log.specs.Forms.{IsNumbered, form_of, form_value};

use crate::hints::asked;
use crate::merged::Merged;
use indexmap::IndexSet;
use net_core::items::Signal;
use net_core::mark::Mark;
use net_core::row::Row;
use net_core::table::Table;
use std::alloc::{AllocError, Global};
use std::marker::Model;

/// What two tables that are to be made equal have in common: the plane, the number of rows, what the marks of
/// all rows ask, row by row, and the first signals to which the pins were made equal.
#[derive(PartialEq, Eq, Hash, Drop)]
pub(crate) struct Form {
    plane: bool,
    rows: usize,
    marks: Vec<Option<bool>>,
    pins: Vec<Signal>,
}

/// Distinct forms, in order.
#[derive(Drop)]
pub(crate) struct FormSet {
    forms: IndexSet<Form>,
}

impl Model for FormSet {
    ghost use Rattle.std.specs.Prelude.{List, map};
    ghost use Rattle.merge_log.specs.Forms.{FormValue, form_value};

    ghost Value = { List FormValue };

    ghost view = { λ a. map form_value a.forms.keys };
}

/// Adds what these marks ask.
fn push_asked(marks: &mut Vec<Option<bool>>, row: &[Mark]) -> Result<(), AllocError>
    ensures { OnOk result (marks.new.items ≡ marks.old.items ++ map asked row.now) }
{
    for mark in row {
        marks.push(asked(*mark))?;
    }
    Ok(())
}

/// What the marks of these rows ask, row by row.
fn all_asked(alloc: Global, rows: &[Row]) -> Result<Vec<Option<bool>>, AllocError>
    ensures { IfOk result (λ marks. marks.items ≡ flat_map (map asked) rows.now) }
{
    let mut marks = Vec::new(alloc);
    for row in rows {
        push_asked(&mut marks, row.as_slice())?;
    }
    Ok(marks)
}

/// The first signals to which these signals were made equal.
fn firsts(alloc: Global, merged: &Merged, signals: &[Signal]) -> Result<Vec<Signal>, AllocError>
    requires { All (λ s. s < length merged.now.firsts) signals.now }
    ensures { IfOk result (λ firsts. firsts.items ≡ map (first_of merged.now) signals.now) }
{
    let mut firsts = Vec::new(alloc);
    for s in signals {
        firsts.push(merged.first(*s))?;
    }
    Ok(firsts)
}

/// The form of a table.
pub(crate) fn form_of(alloc: Global, merged: &Merged, table: &Table) -> Result<Form, AllocError>
    requires { All (λ s. s < length merged.now.firsts) table.now.pins }
    ensures { IfOk result (λ form. form_value form ≡ form_of merged.now table.now) }
{
    Ok(Form {
        plane: table.plane(),
        rows: table.rows().len(),
        marks: all_asked(alloc, table.rows().as_slice())?,
        pins: firsts(alloc, merged, table.pins().as_slice())?,
    })
}

impl FormSet {
    pub(crate) fn new(alloc: Global) -> FormSet
        ensures { result ≡ [] }
    {
        FormSet {
            forms: IndexSet::new(alloc),
        }
    }

    /// The number of a form, from 0: a form that is new gets the next number.
    pub(crate) fn number(&mut self, form: Form) -> Result<usize, AllocError>
        ensures { IfOk result (IsNumbered self.old self.new (form_value form)) }
    {
        let (at, _) = self.forms.insert_full(form)?;
        Ok(at)
    }
}
