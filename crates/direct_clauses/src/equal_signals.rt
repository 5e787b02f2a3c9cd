//! Signals that were shown to be equal, or opposite, by two derived clauses of two literals.
use proof_parts::log::Item;
use std::alloc::{AllocError, Global};
use std::collections::HashMap;

/// The literal that a variable equals, and the ids of the clauses that say so: where the variable is true the
/// literal is, and where the literal is true the variable is.
#[derive(Clone, Copy, Drop)]
pub(crate) struct Link {
    pub(crate) literal: i32,
    pub(crate) forth: u64,
    pub(crate) back: u64,
}

/// For each variable its link, if it has one, to a variable of lower rank, and its rank.
#[derive(Drop)]
pub(crate) struct Links {
    links: Vec<Option<Link>>,
    ranks: Vec<u32>,
}

/// A number of a literal.
fn code(literal: i32) -> u64 {
    u64::from(literal.unsigned_abs()) * 2 + u64::from(literal > 0)
}

/// A key of a clause of two literals, whichever stands first.
fn key(one: i32, other: i32) -> u64 {
    let low = code(one.min(other));
    let high = code(one.max(other));
    low << 32 | high
}

/// The ranks: inputs have 0, and the tables' signals rise in their order.
fn ranks(alloc: Global, order: &[u32], signals: u32) -> Result<Vec<u32>, AllocError> {
    let mut ranks = vec![in alloc; 0; signals as usize + 1]?;
    for (i, signal) in order.iter().enumerate() {
        let at = (*signal as usize).saturating_add(1);
        if at < ranks.len() {
            ranks[at] = u32::try_from(i).unwrap_or(u32::MAX).saturating_add(1);
        }
    }
    Ok(ranks)
}

impl Links {
    /// The rank of a literal's variable.
    fn rank(&self, literal: i32) -> u32 {
        let at = literal.unsigned_abs() as usize;
        if at < self.ranks.len() {
            self.ranks[at]
        } else {
            0
        }
    }

    /// The link of a literal's variable.
    pub(crate) fn link(&self, literal: i32) -> Option<Link> {
        let at = literal.unsigned_abs() as usize;
        if at < self.links.len() {
            self.links[at]
        } else {
            None
        }
    }

    /// How many variables have places.
    pub(crate) fn count(&self) -> usize {
        self.links.len()
    }

    /// The last literal that one finds along the links.
    pub(crate) fn root(&self, literal: i32) -> i32 {
        let mut literal = literal;
        for _ in 0..self.links.len() {
            match self.link(literal) {
                Some(link) => {
                    literal = if literal > 0 {
                        link.literal
                    } else {
                        link.literal.saturating_neg()
                    };
                }
                None => return literal,
            }
        }
        literal
    }

    /// Notes that of these two literals, of which `one` has the variable of higher rank, one is true and the
    /// other is false, as the clause `both` of the two and the clause `neither` of their opposites say.
    fn note(&mut self, one: i32, other: i32, both: u64, neither: u64) {
        let at = one.unsigned_abs() as usize;
        if at >= self.links.len() || self.links[at].is_some() {
            return;
        }
        self.links[at] = Some(if one > 0 {
            Link {
                literal: other.saturating_neg(),
                forth: neither,
                back: both,
            }
        } else {
            Link {
                literal: other,
                forth: both,
                back: neither,
            }
        });
    }

    /// Takes note of a derived clause of two literals.
    fn read(
        &mut self,
        seen: &mut HashMap<u64, u64>,
        one: i32,
        other: i32,
        id: u64,
    ) -> Result<(), AllocError> {
        let opposite = key(one.saturating_neg(), other.saturating_neg());
        if let Some(neither) = seen.get(&opposite) {
            if self.rank(one) > self.rank(other) {
                self.note(one, other, id, *neither);
            } else if self.rank(one) < self.rank(other) {
                self.note(other, one, id, *neither);
            }
        }
        let _before = seen.insert(key(one, other), id)?;
        Ok(())
    }

    /// The links that the steps of a log show.
    pub(crate) fn of(
        alloc: Global,
        items: &[Item],
        order: &[u32],
        signals: u32,
    ) -> Result<Links, AllocError> {
        let mut links = Links {
            links: vec![in alloc; None; signals as usize + 1]?,
            ranks: ranks(alloc, order, signals)?,
        };
        let mut seen = HashMap::new(alloc);
        for item in items {
            if let Item::Add(step) = item {
                let lits = step.lits().as_slice();
                if lits.len() == 2
                    && lits[0].unsigned_abs() <= signals
                    && lits[1].unsigned_abs() <= signals
                {
                    links.read(&mut seen, lits[0], lits[1], step.id())?;
                }
            }
        }
        Ok(links)
    }
}
