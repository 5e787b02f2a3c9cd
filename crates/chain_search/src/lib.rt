//! The search of `salsa`: the chain of simplifications, each of whose moves is judged by known vectors,
//! diagrams and the solver.
#![tactic(auto)]

pub mod chain;
