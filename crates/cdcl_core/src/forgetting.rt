//! A search that forgets: rounds of the search that stands.
//!
//! A round is a whole search over the clauses of the formula and the learned clauses that are kept. Its steps
//! are appended to the whole log, whose clauses stay; so each step has its hints there, and nothing of the
//! search itself changes. Source: the reductions of the clause database in Chaff, MiniSat and Glucose, here
//! at restarts from nothing.
ghost use Rattle.std.specs.Prelude.{◌≡◌, true, ◌+◌, ◌<◌, ◌≤◌, ◌^◌, ◌++◌, map, length, IfOk, OnOk, IfSome};
ghost use Rattle.proof_semantics.specs.Logs.{IsDerivation};
ghost use Rattle.cdcl_core.specs.Answers.{IsModel};
ghost use Rattle.cdcl_core.specs.Outcomes.{IsOutcome, IsOpenBehind};
ghost use Rattle.cdcl_core.specs.Rounds.{IsRound, HasNextIds, IsAnswerWithin, IsLogWithin, renamed};

use crate::answer::Answer;
use crate::decision_order::Order;
use crate::guide::Guide;
use crate::kept_clauses::{Round, round_of, whole_clause};
use crate::later_conflicts::LaterConflicts;
use crate::outcome::Outcome;
use crate::pace::Pace;
use crate::ratings::{Kept, LastRound, first_kept, kept_after};
use crate::solve::{Habits, solve_on};
use crate::whole_log::{append_renamed, push_next_ids};
use direct_clauses::direct::direct_clauses;
use net_parts::items::{Bits, Items};
use progress::progress::{Progress, Silent};
use proof_parts::cnf::Cnf;
use proof_parts::log::{Ids, Log};
use std::alloc::{AllocError, Global};

/// The conflicts of the first round.
const FIRST_ROUND: u64 = 2_000;

/// How many conflicts each further round has more than the one before it.
const MORE_A_ROUND: u64 = 300;

/// The length of the whole log and the formula stays below this number.
const LONGEST: u64 = 1 << 63;

/// The guide without its pairs, which the first search has swept.
fn guide_without_pairs(alloc: Global, guide: &Guide) -> Result<Guide, AllocError> {
    let mut pins = Items::new(alloc);
    for of_table in guide.pins.as_slice() {
        pins.push(of_table.copy()?)?;
    }
    Ok(Guide {
        inputs: guide.inputs,
        signals: guide.signals,
        pins,
        order: guide.order.copy()?,
        candidates: Items::new(alloc),
        search_first: false,
    })
}

/// Notes the variables of a clause.
fn note_variables(read: &mut [bool], literals: &[i32]) {
    for literal in literals {
        let at = literal.unsigned_abs() as usize;
        if at < read.len() {
            read[at] = true;
        }
    }
}

/// For each variable up to `signals` whether it stands in a clause that has one of these ids.
fn read_variables(
    alloc: Global,
    cnf: &Cnf,
    whole: &Log,
    ids: &[u64],
    signals: u32,
) -> Result<Vec<bool>, AllocError>
    requires { IsDerivation cnf.now whole.now }
{
    let mut read = vec![in alloc; false; signals as usize + 1]?;
    for id in ids {
        if let Some(lits) = whole_clause(cnf, whole, *id) {
            note_variables(&mut read, lits.as_slice());
        }
    }
    Ok(read)
}

/// What a round leaves to the next one: the order and the pace of the search; the ids of the clauses with
/// which each round begins; and the learned clauses that the next one keeps.
#[derive(Drop)]
struct Memory {
    habits: Habits,
    base: Ids,
    kept: Vec<Kept>,
}

/// The memory before the first round, behind the first `count` steps, which were learned. A round begins with
/// the clauses that have the ids `base`, or with those of the formula where there are none.
fn first_memory(
    alloc: Global,
    cnf: &Cnf,
    derived: &Log,
    count: usize,
    guide: &Guide,
    base: Ids,
) -> Result<Memory, AllocError>
    requires derivation { IsDerivation cnf.now derived.now }
    requires count { count ≤ length derived.now }
{
    let pace = Pace::new(alloc, 0, guide.signals > 0);
    if base.len() == 0 {
        let mut base = base;
        push_next_ids(&mut base, 1, cnf.clauses().len() as u64)?;
        let kept = first_kept(alloc, cnf, derived, count, None)?;
        let habits = Habits { order: None, pace };
        return Ok(Memory { habits, base, kept });
    }
    let read = read_variables(alloc, cnf, derived, base.as_slice(), guide.signals)?;
    let order = Some(Order::of_read(alloc, cnf.vars(), &read)?);
    let habits = Habits { order, pace };
    let kept = first_kept(alloc, cnf, derived, count, Some(&read))?;
    Ok(Memory { habits, base, kept })
}

/// The ids of the clauses of a round.
fn round_ids(memory: &Memory) -> Result<Ids, AllocError> {
    let mut ids = memory.base.copy()?;
    for clause in &memory.kept {
        ids.push(clause.id)?;
    }
    Ok(ids)
}

/// The model to which values of the inputs lead, where they lead to one: the inputs are decided before all
/// others, each variable with its value.
fn model_from(
    alloc: Global,
    cnf: &Cnf,
    guide: &Guide,
    values: &Bits,
) -> Result<Option<Bits>, AllocError>
    requires { length cnf.now.clauses < 2 ^ 63 }
    ensures { IfOk result (λ found. IfSome found (IsModel cnf.now)) }
{
    let order = Order::with_values(alloc, cnf.vars(), guide, values.as_slice())?;
    let mut habits = Habits {
        order: Some(order),
        pace: Pace::new(alloc, 0, guide.signals > 0),
    };
    match solve_on(alloc, cnf, guide, &mut habits, 1, &mut Silent)? {
        Answer::Model(bits) => Ok(Some(bits)),
        _ => Ok(None),
    }
}

/// Whether the whole log has room for the steps of `conflicts` conflicts and for the empty clause.
fn has_room(cnf: &Cnf, whole: &Log, conflicts: u64) -> bool
    requires { IsDerivation cnf.now whole.now }
    ensures { result ≡ true → length cnf.now.clauses + length whole.now + conflicts + 1 < 2 ^ 63 }
{
    let length = cnf.clauses().len() as u64 + whole.len() as u64;
    length < LONGEST - 1 && conflicts < LONGEST - 1 - length
}

/// Appends the steps of a round to the whole log. Their ids come behind `ids`, those of the round's clauses.
fn append_round(
    alloc: Global,
    cnf: &Cnf,
    whole: &mut Log,
    ids: &mut Ids,
    log: &Log,
) -> Result<(), AllocError>
    requires { length cnf.now.clauses + length whole.old + length log.now < 2 ^ 63 }
    ensures ids { OnOk result (HasNextIds (length cnf.now.clauses + length whole.old + 1) (length log.now)
        ids.old ids.new) }
    ensures items { OnOk result (whole.new ≡ whole.old ++ map (renamed ids.new) log.now) }
{
    let next = cnf.clauses().len() as u64 + whole.len() as u64 + 1;
    push_next_ids(ids, next, log.len() as u64)?;
    append_renamed(alloc, whole, ids.as_slice(), log.as_slice())?;
    Ok(())
}

/// Appends the steps of a spent round to the whole log, and notes what the next round keeps.
fn go_on(
    alloc: Global,
    cnf: &Cnf,
    whole: &mut Log,
    memory: &mut Memory,
    round: Round,
    log: &Log,
) -> Result<(), AllocError>
    requires derivation { IsDerivation cnf.now whole.old }
    requires round { IsRound cnf.now whole.old round.formula round.ids }
    requires steps { IsLogWithin cnf.now whole.old round.formula log.now }
    ensures { OnOk result (IsOpenBehind cnf.now whole.old whole.new) }
{
    let next = (cnf.clauses().len() as u64).saturating_add(whole.len() as u64);
    let mut ids = round.ids;
    append_round(alloc, cnf, whole, &mut ids, log)?;
    let last = LastRound {
        kept: &memory.kept,
        first: memory.base.len(),
        log: log.as_slice(),
        next: next.saturating_add(1),
        levels: memory.habits.pace.levels(),
    };
    memory.kept = kept_after(alloc, cnf, whole, last)?;
    memory.habits.pace.end_list();
    Ok(())
}

/// What a round's answer shows of the formula.
fn outcome(
    alloc: Global,
    cnf: &Cnf,
    whole: Log,
    memory: &mut Memory,
    guide: &Guide,
    round: Round,
    answer: Answer,
) -> Result<Outcome, AllocError>
    requires derivation { IsDerivation cnf.now whole }
    requires round { IsRound cnf.now whole round.formula round.ids }
    requires answer { IsAnswerWithin cnf.now whole round.formula answer }
    ensures { IfOk result (IsOutcome cnf.now whole) }
{
    let mut whole = whole;
    match answer {
        Answer::Model(values) => match model_from(alloc, cnf, guide, &values)? {
            Some(bits) => Ok(Outcome::Model(bits)),
            None => Ok(Outcome::Open(whole)),
        },
        Answer::Refuted(log) => {
            let mut ids = round.ids;
            append_round(alloc, cnf, &mut whole, &mut ids, &log)?;
            Ok(Outcome::Refuted(whole))
        }
        Answer::Spent(log) => {
            go_on(alloc, cnf, &mut whole, memory, round, &log)?;
            Ok(Outcome::Open(whole))
        }
    }
}

/// A round of `conflicts` conflicts.
fn take_round<P: Progress>(
    alloc: Global,
    cnf: &Cnf,
    whole: Log,
    memory: &mut Memory,
    guide: &Guide,
    conflicts: u64,
    progress: &mut P,
) -> Result<Outcome, AllocError>
    requires some { 1 ≤ conflicts }
    requires derivation { IsDerivation cnf.now whole }
    requires room { length cnf.now.clauses + length whole + conflicts + 1 < 2 ^ 63 }
    ensures { IfOk result (IsOutcome cnf.now whole) }
{
    let ids = round_ids(memory)?;
    let round = round_of(alloc, cnf, &whole, ids.as_slice())?;
    let habits = &mut memory.habits;
    let answer = solve_on(alloc, &round.formula, guide, habits, conflicts, progress)?;
    outcome(alloc, cnf, whole, memory, guide, round, answer)
}

/// A model of the formula, a log that refutes it, or a longer derivation, after at most `limit` conflicts
/// more. The logs begin with `derived`, which the caller derived. The search forgets learned clauses that are
/// seldom used, and the logs have them all. No statement depends on the guide, whose pairs are not swept.
/// Tells `progress` each conflict, counted from 1. The error is want of memory.
pub fn solve_forgetting<P: Progress>(
    alloc: Global,
    cnf: &Cnf,
    derived: Log,
    guide: &Guide,
    limit: u64,
    progress: &mut P,
) -> Result<Outcome, AllocError>
    requires limit { 1 ≤ limit }
    requires derived { IsDerivation cnf.now derived }
    ensures { IfOk result (IsOutcome cnf.now derived) }
{
    let guide = guide_without_pairs(alloc, guide)?;
    let count = derived.len();
    let direct = direct_clauses(alloc, cnf, derived, guide.order.as_slice(), guide.signals)?;
    let mut whole = direct.log;
    let mut memory = first_memory(alloc, cnf, &whole, count, &guide, direct.base)?;
    let mut spent = 0;
    let mut most = FIRST_ROUND;
    'rounds: while spent < limit {
        let conflicts = most.min(limit - spent);
        if !has_room(cnf, &whole, conflicts) {
            break;
        }
        let mut later = LaterConflicts {
            progress,
            before: spent,
        };
        match take_round(
            alloc,
            cnf,
            whole,
            &mut memory,
            &guide,
            conflicts,
            &mut later,
        )? {
            Outcome::Model(bits) => return Ok(Outcome::Model(bits)),
            Outcome::Refuted(log) => return Ok(Outcome::Refuted(log)),
            Outcome::Open(longer) => whole = longer,
        }
        spent += conflicts;
        most = most.saturating_add(MORE_A_ROUND);
    }
    Ok(Outcome::Open(whole))
}
