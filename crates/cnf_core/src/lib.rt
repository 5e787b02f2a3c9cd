//! Formulas in conjunctive normal form: the clauses of nets, logs that refute them, and their texts.
#![tactic(auto)]

pub mod dimacs;
pub mod dimacs_text;
mod draft;
mod front_digits;
mod front_numbers;
mod held_word;
mod item_draft;
pub mod lrat;
mod lrat_part;
pub mod lrat_reader;
mod lrat_scanner;
pub mod lrat_text;
mod number_list;
pub mod of_net;
mod table_clauses;
mod text_token;
mod token_text;
mod tokens;

pub use proof_parts::{clause, cnf, literal, log};
