//! Clauses of nets, logs that refute them, their texts, and the laws about them. It has no code but enums
//! and the type `Constraint`, which definitions and code share.
#![tactic(auto)]

pub mod alike_examples;
pub mod alike_laws;
pub mod conflict_examples;
pub mod conflict_laws;
pub mod constraint;
pub mod examples;
pub mod item;
pub mod laws;
pub mod lrat_examples;
pub mod lrat_laws;
pub mod lrat_refusal;
pub mod lrat_word;
pub mod query_examples;
pub mod step_refusal;
