//! The search: propagation, and decisions only where it is complete, until a clause is false or each variable
//! has a value.
//!
//! Before each decision every clause is settled: it has a true literal, or two that are open. This is what
//! makes each learned clause new, so a decision never comes before propagation has ended. Source: the loop of
//! GRASP, Chaff and MiniSat.
ghost use Rattle.std.specs.Prelude.{◌≡◌, [], MatchOption, IfOk};
ghost use Rattle.proof_semantics.specs.Logs.{IsDerivation};
ghost use Rattle.proof_semantics.specs.Conflicts.{clauses_with};
ghost use Rattle.cdcl_core.specs.Propagation.{IsConflict};
ghost use Rattle.cdcl_core.specs.Watches.{no_watches};
ghost use Rattle.cdcl_core.specs.Watching.{IsWatching, IsWatchedBelow};
ghost use Rattle.cdcl_core.specs.Searched.{IsSearch, IsSearching, IsModelTrail};

use crate::analysis::Learned;
use crate::clause::{push_added, push_all};
use crate::clause_list::ClauseList;
use crate::decision::decide;
use crate::decision_order::Order;
use crate::implied::Implied;
use crate::propagation::propagate;
use crate::step_log::StepLog;
use crate::trail::Trail;
use crate::trail_marks::Marks;
use crate::watches::Watches;
use direct_clauses::log_copy::log_copy;
use proof_parts::cnf::Cnf;
use proof_parts::log::Log;
use std::alloc::{AllocError, Global};

/// The clauses that are held, the literals that are true, the watches, the order of the variables, the log of
/// what was derived, room for the marks of an analysis and for what they imply, and what was learned last.
#[derive(Drop)]
pub struct SolverState {
    pub clauses: ClauseList,
    pub trail: Trail,
    pub watches: Watches,
    pub order: Order,
    pub log: StepLog,
    pub marks: Marks,
    pub implied: Implied,
    pub learned: Learned,
}

/// The clauses of the formula, and those that the log adds.
fn all_clauses(alloc: Global, cnf: &Cnf, log: &Log) -> Result<ClauseList, AllocError>
    ensures { IfOk result (λ clauses. clauses.list ≡ clauses_with cnf.now.clauses log.now) }
{
    let mut clauses = ClauseList::new(alloc);
    push_all(alloc, &mut clauses, cnf.clauses().as_slice())?;
    push_added(alloc, &mut clauses, log.as_slice())?;
    Ok(clauses)
}

/// The search at its start: no variable has a value, and the log is `merged`.
pub fn start(
    alloc: Global,
    cnf: &Cnf,
    merged: &Log,
    order: Order,
) -> Result<SolverState, AllocError>
    requires merged { IsDerivation cnf.now merged.now }
    requires order { order ≡ cnf.now.variables }
    ensures search { IfOk result (IsSearch cnf.now merged.now 0) }
    ensures starts { IfOk result (λ search. search.trail.starts ≡ []) }
    ensures watches { IfOk result (λ search. search.watches ≡ no_watches search.trail.variables) }
{
    let variables = cnf.vars();
    let clauses = all_clauses(alloc, cnf, merged)?;
    let trail = Trail::new(alloc, variables)?;
    let watches = Watches::new(alloc, variables)?;
    let log = StepLog::new(alloc, log_copy(alloc, merged.as_slice())?);
    let marks = Marks::new(alloc);
    let implied = Implied::new(alloc);
    let learned = Learned::none(alloc);
    Ok(SolverState {
        clauses,
        trail,
        watches,
        order,
        log,
        marks,
        implied,
        learned,
    })
}

/// Decides, each time after complete propagation, until a clause is false, or every variable has a value. The
/// least open variable up to `inputs` is decided first.
pub fn next_conflict(
    trail: &mut Trail,
    watches: &mut Watches,
    clauses: &ClauseList,
    order: &mut Order,
    inputs: u32,
) -> Result<Option<usize>, AllocError>
    requires searching { IsSearching clauses.now.list trail.old order.old }
    requires watching { IsWatching clauses.now.list trail.old watches.old }
    ensures searching { IfOk result (λ _. IsSearching clauses.now.list trail.new order.new) }
    ensures watched { IfOk result (λ _. IsWatchedBelow clauses.now.list trail.new watches.new) }
    ensures found { IfOk result (λ found. MatchOption found
        (IsModelTrail clauses.now.list trail.new) (IsConflict clauses.now.list trail.new)) }
    ensures order { order.new ≡ order.old }
{
    loop {
        trail.consistent();
        if let Some(conflict) = propagate(trail, watches, clauses)? {
            return Ok(Some(conflict));
        }
        match decide(trail, order, inputs) {
            None => return Ok(None),
            Some(literal) => trail.push_decision(literal)?,
        }
    }
}
