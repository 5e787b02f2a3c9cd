//! Rows of marks, those of a net and those that are edited in place.
ghost use Rattle.std.specs.Prelude.{◌≡◌, ◌<◌, ◌==◌, if◌then◌else◌, List, [], length, IfOk};
ghost use Rattle.std.specs.List.{remove};
ghost use Rattle.semantics.specs.declared.mark.Mark.{Mark};
ghost use Rattle.chain_semantics.specs.TidyRules.{mark_at, clash, joined, opposite, with_marks_joined};
ghost use Rattle.chain_semantics.specs.TidyRules.{with_marks_turned};

use net_core::items::Signal;
use net_core::mark::Mark;
use net_core::row::Row;
use std::alloc::{AllocError, Global};
use std::marker::Model;

/// What has the marks of a row.
pub(crate) trait Marked {
    ghost marks: { Self → List Mark };

    /// The marks, one for each pin.
    fn marks(&self) -> &[Mark]
        ensures { result.now ≡ marks self.now };
}

impl Marked for Row {
    ghost marks = { λ row. row };

    fn marks(&self) -> &[Mark] {
        self.as_slice()
    }
}

/// The mark at `q`, and a dash past the end.
pub(crate) fn mark_at(marks: &[Mark], q: usize) -> Mark
    ensures { result ≡ mark_at marks.now q }
{
    match marks.get(q) {
        Some(mark) => *mark,
        None => Mark::Dash,
    }
}

/// Whether one mark asks for 0 and the other for 1.
pub(crate) fn clash(a: Mark, b: Mark) -> bool
    ensures { result ≡ clash a b }
{
    match (a, b) {
        (Mark::Zero, Mark::One) => true,
        (Mark::One, Mark::Zero) => true,
        _ => false,
    }
}

/// The mark `a`, or `b` where `a` is a dash.
fn joined(a: Mark, b: Mark) -> Mark
    ensures { result ≡ joined a b }
{
    match a {
        Mark::Dash => b,
        _ => a,
    }
}

fn opposite(mark: Mark) -> Mark
    ensures { result ≡ opposite mark }
{
    match mark {
        Mark::Zero => Mark::One,
        Mark::One => Mark::Zero,
        Mark::Dash => Mark::Dash,
    }
}

/// The mark of a pin, or its opposite where the pin reads signal `s`.
fn turned(mark: Mark, pin: Signal, s: Signal) -> Mark
    ensures { result ≡ (if pin == s then opposite mark else mark) }
{
    if pin == s { opposite(mark) } else { mark }
}

/// Turns each mark whose pin reads signal `s` into its opposite.
fn turn_marks(marks: &mut [Mark], s: Signal, pins: &[Signal])
    requires { length marks.old ≡ length pins.now }
    ensures { marks.new ≡ with_marks_turned s pins.now marks.old }
{
    for (i, pin) in pins.iter().enumerate() {
        marks[i] = turned(marks[i], *pin, s);
    }
}

/// The marks of a row that is edited in place.
#[derive(Drop)]
pub(crate) struct Marks {
    marks: Vec<Mark>,
}

impl Model for Marks {
    ghost use Rattle.std.specs.Prelude.{List};
    ghost use Rattle.semantics.specs.declared.mark.Mark.{Mark};

    ghost Value = { List Mark };

    ghost view = { λ a. a.marks.items };
}

impl Marked for Marks {
    ghost marks = { λ row. row };

    fn marks(&self) -> &[Mark] {
        self.marks.as_slice()
    }
}

impl Marks {
    /// A copy of these marks.
    pub(crate) fn from_slice(alloc: Global, marks: &[Mark]) -> Result<Marks, AllocError>
        ensures { IfOk result (λ row. row ≡ marks.now) }
    {
        let marks = Vec::from_slice(alloc, marks)?;
        Ok(Marks { marks })
    }

    /// Takes out the mark at `q`.
    pub(crate) fn remove(&mut self, q: usize)
        requires { q < length self.old }
        ensures { self.new ≡ remove self.old q }
    {
        self.marks.remove(q);
    }

    /// Takes out all marks.
    pub(crate) fn clear(&mut self)
        ensures { self.new ≡ [] }
    {
        self.marks.clear();
    }

    /// Puts the mark at `q` in the place of a dash at `p`.
    pub(crate) fn join(&mut self, p: usize, q: usize)
        requires { p < length self.old }
        ensures { self.new ≡ with_marks_joined p q self.old }
    {
        self.marks[p] = joined(self.marks[p], mark_at(&self.marks, q));
    }

    /// Turns each mark whose pin reads signal `s` into its opposite.
    pub(crate) fn turn(&mut self, s: Signal, pins: &[Signal])
        requires { length self.old ≡ length pins.now }
        ensures { self.new ≡ with_marks_turned s pins.now self.old }
    {
        turn_marks(&mut self.marks, s, pins);
    }
}
