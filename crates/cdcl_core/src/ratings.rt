//! Which learned clauses the next round keeps. No statement depends on it.
//!
//! A clause whose literals stood on few levels when it was learned is likely to be used again, and stays. A
//! clause of some levels stays for two rounds behind the last one in which it was a hint, any other for one.
//! Of those that are then left the best quarter stays: that of fewest levels, and of fewest literals, since
//! propagation looks at each clause that stays. Source: the levels of Glucose, and the tiers of CaDiCaL; here
//! a clause is used where it is a hint.
ghost use Rattle.std.specs.Prelude.{◌≤◌, length};
ghost use Rattle.proof_semantics.specs.Logs.{IsDerivation};

use crate::kept_clauses::step_clause;
use proof_parts::cnf::Cnf;
use proof_parts::log::{Item, Log};
use std::alloc::{AllocError, Global};

/// The most literals of a clause that stays whether it is used or not: so short a clause costs little, and
/// rules out much.
const SHORT: usize = 2;

/// The most levels of a clause that stays whether it is used or not.
const FEW_LEVELS: u32 = 2;

/// The most levels of a clause that stays for two rounds behind its last use.
const SOME_LEVELS: u32 = 6;

/// For how many rounds behind its last use a clause may stay.
const LATELY: u32 = 2;

/// How many of the last steps that the caller derived count as the last round.
const LAST_LOGGED: usize = 2_000;

/// One in this number of the clauses that were not used lately stays.
const ONE_IN: usize = 4;

/// A learned clause: its id in the whole log, the number of levels of its literals, and for how many rounds
/// its last use counts.
#[derive(Clone, Copy, Drop)]
pub struct Kept {
    pub id: u64,
    pub levels: u32,
    pub lately: u32,
}

/// A clause that may be forgotten, the better ones first: the number of its levels, of its literals, and its
/// id in the whole log.
type Rating = (u32, usize, u64);

/// Notes a use of the clause that has the id `id` in the round.
fn note_use(used: &mut [bool], id: u64) {
    let place = id.saturating_sub(1) as usize;
    if place < used.len() {
        used[place] = true;
    }
}

/// Notes the uses of the clauses that are hints of an item.
fn note_hints(used: &mut [bool], item: &Item) {
    if let Item::Add(step) = item {
        for hint in step.hints().as_slice() {
            note_use(used, *hint);
        }
    }
}

/// Which of the first `count` clauses of a round are hints of these steps.
fn used_in(alloc: Global, count: usize, log: &[Item]) -> Result<Vec<bool>, AllocError> {
    let mut used = vec![in alloc; false; count]?;
    for item in log {
        note_hints(&mut used, item);
    }
    Ok(used)
}

/// For how many rounds more the use of a clause counts, where it stays; None where it may be forgotten.
fn stay(clause: Kept, literals: usize) -> Option<u32> {
    if literals <= SHORT || clause.levels <= FEW_LEVELS {
        Some(clause.lately)
    } else if clause.lately > 0 && clause.levels <= SOME_LEVELS {
        Some(clause.lately - 1)
    } else if clause.lately >= LATELY {
        Some(0)
    } else {
        None
    }
}

/// Adds the best, one in `ONE_IN`.
fn push_better(kept: &mut Vec<Kept>, ratings: &mut Vec<Rating>) -> Result<(), AllocError> {
    ratings.sort_unstable();
    let count = ratings.len() / ONE_IN;
    for (levels, _, id) in &ratings[..count] {
        kept.push(Kept {
            id: *id,
            levels: *levels,
            lately: 0,
        })?;
    }
    Ok(())
}

/// Those of the clauses that the next round keeps.
fn kept_of(alloc: Global, cnf: &Cnf, whole: &Log, clauses: &[Kept]) -> Result<Vec<Kept>, AllocError>
    requires { IsDerivation cnf.now whole.now }
{
    let mut kept = Vec::new(alloc);
    let mut ratings = Vec::new(alloc);
    for clause in clauses {
        if let Some(lits) = step_clause(cnf, whole, clause.id) {
            match stay(*clause, lits.len()) {
                Some(lately) => kept.push(Kept { lately, ..*clause })?,
                None => ratings.push((clause.levels, lits.len(), clause.id))?,
            }
        }
    }
    push_better(&mut kept, &mut ratings)?;
    Ok(kept)
}

/// The clauses that were kept, with the uses of the last round; the first of them stood at the place `first`
/// of the round, and its steps are `log`.
fn with_uses(
    alloc: Global,
    kept: &[Kept],
    first: usize,
    log: &[Item],
) -> Result<Vec<Kept>, AllocError> {
    let count = first.saturating_add(kept.len());
    let used = used_in(alloc, count, log)?;
    let mut clauses = Vec::new(alloc);
    for (i, clause) in kept.iter().enumerate() {
        let place = first.saturating_add(i);
        let is_used = place < used.len() && used[place];
        let lately = if is_used { LATELY } else { clause.lately };
        clauses.push(Kept { lately, ..*clause })?;
    }
    Ok(clauses)
}

/// Adds the clauses that the last round learned, from the id `next` on, with these numbers of levels.
fn push_learned(clauses: &mut Vec<Kept>, next: u64, levels: &[u32]) -> Result<(), AllocError> {
    for (i, of_clause) in levels.iter().enumerate() {
        clauses.push(Kept {
            id: next.saturating_add(i as u64),
            levels: *of_clause,
            lately: LATELY,
        })?;
    }
    Ok(())
}

/// The last round: the clauses that it kept, the place of the first of them, its steps, and the clauses that
/// it learned, by the numbers of their levels; in the whole log these have the ids from `next` on.
#[derive(Clone, Copy, Drop)]
pub struct LastRound<'a> {
    pub kept: &'a [Kept],
    pub first: usize,
    pub log: &'a [Item],
    pub next: u64,
    pub levels: &'a [u32],
}

/// The learned clauses that the round behind the last one keeps.
pub fn kept_after(
    alloc: Global,
    cnf: &Cnf,
    whole: &Log,
    last: LastRound,
) -> Result<Vec<Kept>, AllocError>
    requires { IsDerivation cnf.now whole.now }
{
    let mut clauses = with_uses(alloc, last.kept, last.first, last.log)?;
    push_learned(&mut clauses, last.next, last.levels)?;
    kept_of(alloc, cnf, whole, &clauses)
}

/// Whether each variable of a clause is read.
fn is_read(read: &[bool], literals: &[i32]) -> bool {
    for literal in literals {
        let at = literal.unsigned_abs() as usize;
        if at >= read.len() || !read[at] {
            return false;
        }
    }
    true
}

/// Whether a step was learned behind direct clauses: its last hint is then no clause of the formula.
fn is_behind(first: usize, item: &Item) -> bool {
    match item {
        Item::Add(step) => match step.hints().as_slice().last() {
            Some(hint) => *hint > first as u64,
            None => false,
        },
        Item::Remove(_) => false,
    }
}

/// The learned clauses that the first round keeps, of those that the first `count` items of a log add: where
/// some variables are not read, those alone whose variables are, and which were learned behind direct
/// clauses. Nothing is known of their levels: so many as a clause has literals are taken. The last steps
/// count as the last round.
pub fn first_kept(
    alloc: Global,
    cnf: &Cnf,
    derived: &Log,
    count: usize,
    read: Option<&[bool]>,
) -> Result<Vec<Kept>, AllocError>
    requires derivation { IsDerivation cnf.now derived.now }
    requires count { count ≤ length derived.now }
{
    let first = cnf.clauses().len();
    let from = count.saturating_sub(LAST_LOGGED);
    let items = derived.as_slice();
    let used = used_in(alloc, first.saturating_add(count), &items[from..count])?;
    let mut clauses = Vec::new(alloc);
    for i in 0..count {
        let id = (first as u64).saturating_add(i as u64).saturating_add(1);
        if let Some(lits) = step_clause(cnf, derived, id) {
            let stays = match read {
                Some(read) => is_read(read, lits.as_slice()) && is_behind(first, &items[i]),
                None => true,
            };
            let place = first.saturating_add(i);
            let is_late = from <= i || place < used.len() && used[place];
            if stays {
                clauses.push(Kept {
                    id,
                    levels: u32::try_from(lits.len()).unwrap_or(u32::MAX),
                    lately: if is_late { LATELY } else { 0 },
                })?;
            }
        }
    }
    kept_of(alloc, cnf, derived, &clauses)
}
