//! A solver by clause learning: it satisfies a formula, refutes it, or shows the conflicts that it had.
#![tactic(auto)]

mod analysis;
pub mod answer;
mod clause;
mod clause_list;
mod cone;
mod decision;
mod decision_order;
mod first_watches;
pub mod forgetting;
pub mod guide;
mod implied;
mod jump;
mod kept_clauses;
mod later_conflicts;
pub mod laws;
mod learning;
mod literal;
pub mod outcome;
mod pace;
mod propagation;
mod ratings;
mod refutation;
mod resolution;
mod ring;
mod search;
mod search_turns;
pub mod solve;
mod step_log;
mod sweep;
mod trail;
mod trail_marks;
mod visit;
mod watches;
mod whole_log;
