//! The solver: one turn for each conflict that is allowed.
//!
//! A turn ends, since each decision and each implied literal gives one more variable a value. The clause that
//! a turn learns is new, so after as many turns as conflicts are allowed the log shows that this number of
//! conflicts was spent.
ghost use Rattle.std.specs.Prelude.{◌≡◌, ℕ, ◌<◌, ◌≤◌, ◌^◌, [], List, length, IfOk, OnOk};
ghost use Rattle.proof_semantics.specs.Formula.{Formula};
ghost use Rattle.proof_semantics.specs.Logs.{IsDerivation, LogItem};
ghost use Rattle.cdcl_core.specs.Answers.{IsAnswer};
ghost use Rattle.cdcl_core.specs.Trail.{IsConsistent};
ghost use Rattle.cdcl_core.specs.Decided.{AreValues};
ghost use Rattle.cdcl_core.specs.Searched.{IsSearch, IsSearching};
ghost use Rattle.cdcl_core.specs.Turned.{IsEnd};
ghost use Rattle.cdcl_core.specs.Watches.{no_watches};
ghost use Rattle.cdcl_core.specs.Watching.{IsWatching};

use crate::answer::Answer;
use crate::decision_order::Order;
use crate::first_watches::watch_all;
use crate::guide::Guide;
use crate::jump::reopen;
use crate::learning::log_refutation;
use crate::literal::Literal;
use crate::pace::Pace;
use crate::search::{SolverState, start};
use crate::search_turns::{Turn, take_turn};
use crate::sweep::Sweep;
use crate::trail::Trail;
use net_parts::items::{Bits, Items};
use progress::progress::{Progress, Silent};
use proof_parts::cnf::Cnf;
use proof_parts::log::Log;
use std::alloc::{AllocError, Global};
use std::mem;

/// The value of each variable.
fn values(alloc: Global, trail: &Trail) -> Result<Bits, AllocError>
    requires { trail.now.variables < 2 ^ 31 }
    ensures values { IfOk result (AreValues trail.now) }
    ensures consistent { IsConsistent trail.now.literals }
{
    trail.consistent();
    let mut bits = Items::new(alloc);
    for v in 0..trail.variables() {
        bits.push(trail.is_true(Literal::of(v + 1, true)))?;
    }
    Ok(bits)
}

/// Takes turns until the formula is decided, or until `limit` clauses were learned.
fn take_turns<P: Progress>(
    alloc: Global,
    search: &mut SolverState,
    sweep: &mut Sweep,
    pace: &mut Pace,
    guide: &Guide,
    limit: u64,
    progress: &mut P,
) -> Result<Turn, AllocError>
    requires searching { IsSearching search.old.clauses.list search.old.trail search.old.order }
    requires watching { IsWatching search.old.clauses.list search.old.trail search.old.watches }
    ensures variables { OnOk result (search.new.trail.variables ≡ search.old.trail.variables) }
    ensures shown { IfOk result (λ end. (f : Formula) (merged : List LogItem) → IsSearch f merged 0 search.old
        → IsEnd f merged limit search.new end) }
{
    for conflicts in 0..limit {
        match take_turn(alloc, search, sweep, pace, guide)? {
            Turn::Further => progress.conflicts(conflicts + 1),
            Turn::Refuted => return Ok(Turn::Refuted),
            Turn::Full => return Ok(Turn::Full),
        }
    }
    Ok(Turn::Further)
}

/// Watches the clauses, and searches.
fn search_from<P: Progress>(
    alloc: Global,
    search: &mut SolverState,
    pace: &mut Pace,
    guide: &Guide,
    limit: u64,
    progress: &mut P,
) -> Result<Turn, AllocError>
    requires limit { 1 ≤ limit }
    requires searching { IsSearching search.old.clauses.list search.old.trail search.old.order }
    requires starts { search.old.trail.starts ≡ [] }
    requires watches { search.old.watches ≡ no_watches search.old.trail.variables }
    ensures variables { OnOk result (search.new.trail.variables ≡ search.old.trail.variables) }
    ensures shown { IfOk result (λ end. (f : Formula) (merged : List LogItem) → IsSearch f merged 0 search.old
        → IsEnd f merged limit search.new end) }
{
    let at_once = watch_all(&mut search.trail, &mut search.watches, &search.clauses)?;
    if let Some(conflict) = at_once {
        log_refutation(alloc, search, conflict)?;
        return Ok(Turn::Refuted);
    }
    let mut sweep = Sweep::new(alloc, guide, limit)?;
    take_turns(alloc, search, &mut sweep, pace, guide, limit, progress)
}

/// What a search has shown, and the order that it leaves, in which every variable is open again.
#[derive(Drop)]
struct Ended {
    answer: Answer,
    order: Order,
}

/// What the search has shown.
fn answer(alloc: Global, search: SolverState, end: Turn) -> Result<Ended, AllocError>
    requires { search.trail.variables < 2 ^ 31 }
    ensures { IfOk result (λ ended. (f : Formula) (merged : List LogItem) (limit : ℕ)
        → IsEnd f merged limit search end
        → IsAnswer f merged limit ended.answer) }
{
    let mut order = search.order;
    reopen(&mut order, &search.trail);
    match end {
        Turn::Further => Ok(Ended {
            answer: Answer::Spent(search.log.into_log(alloc)?),
            order,
        }),
        Turn::Refuted => Ok(Ended {
            answer: Answer::Refuted(search.log.into_log(alloc)?),
            order,
        }),
        Turn::Full => Ok(Ended {
            answer: Answer::Model(values(alloc, &search.trail)?),
            order,
        }),
    }
}

/// Searches from the start to the end.
fn search_whole<P: Progress>(
    alloc: Global,
    search: SolverState,
    pace: &mut Pace,
    guide: &Guide,
    limit: u64,
    progress: &mut P,
) -> Result<Ended, AllocError>
    requires limit { 1 ≤ limit }
    requires searching { IsSearching search.clauses.list search.trail search.order }
    requires starts { search.trail.starts ≡ [] }
    requires watches { search.watches ≡ no_watches search.trail.variables }
    ensures { IfOk result (λ ended. (f : Formula) (merged : List LogItem) → IsSearch f merged 0 search
        → IsAnswer f merged limit ended.answer) }
{
    let mut search = search;
    let end = search_from(alloc, &mut search, pace, guide, limit, progress)?;
    let ended = answer(alloc, search, end)?;
    Ok(ended)
}

/// What a search goes on with where an earlier one ended: the order of the variables, with the value that
/// each had last, and the pace. No statement depends on it.
#[derive(Drop)]
pub struct Habits {
    pub order: Option<Order>,
    pub pace: Pace,
}

/// The earlier order, where it is of as many variables; else the first one.
fn order_from(
    alloc: Global,
    variables: u32,
    signals: u32,
    earlier: Option<Order>,
) -> Result<Order, AllocError>
    requires { variables < 2 ^ 31 }
    ensures { IfOk result (λ order. order ≡ variables) }
{
    if let Some(order) = earlier {
        if order.variables() == variables as usize {
            return Ok(order);
        }
    }
    Order::new(alloc, variables, signals)
}

/// Solves a formula as [`solve_guided`] does, without steps that the caller derived, in the order and at the
/// pace of an earlier search.
pub(crate) fn solve_on<P: Progress>(
    alloc: Global,
    cnf: &Cnf,
    guide: &Guide,
    habits: &mut Habits,
    limit: u64,
    progress: &mut P,
) -> Result<Answer, AllocError>
    requires limit { 1 ≤ limit }
    requires short { length cnf.now.clauses < 2 ^ 63 }
    ensures { IfOk result (IsAnswer cnf.now [] limit) }
{
    let none = Items::new(alloc);
    let earlier = mem::replace(&mut habits.order, None);
    let order = order_from(alloc, cnf.vars(), guide.signals, earlier)?;
    let search = start(alloc, cnf, &none, order)?;
    let ended = search_whole(alloc, search, &mut habits.pace, guide, limit, progress)?;
    habits.order = Some(ended.order);
    Ok(ended.answer)
}

/// Solves a formula as [`solve`] does, with a guide, on which no statement depends, and tells `progress` each
/// conflict.
pub fn solve_guided<P: Progress>(
    alloc: Global,
    cnf: &Cnf,
    merged: &Log,
    guide: &Guide,
    limit: u64,
    progress: &mut P,
) -> Result<Answer, AllocError>
    requires limit { 1 ≤ limit }
    requires merged { IsDerivation cnf.now merged.now }
    ensures { IfOk result (IsAnswer cnf.now merged.now limit) }
{
    let order = Order::new(alloc, cnf.vars(), guide.signals)?;
    let search = start(alloc, cnf, merged, order)?;
    let mut pace = Pace::new(alloc, guide.inputs, guide.signals > 0);
    let ended = search_whole(alloc, search, &mut pace, guide, limit, progress)?;
    Ok(ended.answer)
}

/// A model of the formula, a log that refutes it, or a log of as many conflicts as the limit allows. The logs
/// begin with `merged`, which the caller derived.
pub fn solve(alloc: Global, cnf: &Cnf, merged: &Log, limit: u64) -> Result<Answer, AllocError>
    requires limit { 1 ≤ limit }
    requires merged { IsDerivation cnf.now merged.now }
    ensures { IfOk result (IsAnswer cnf.now merged.now limit) }
{
    solve_guided(alloc, cnf, merged, &Guide::none(alloc), limit, &mut Silent)
}
