//! The parts of nets: names, lists, rows of marks and tables, and what nets are put together from.
#![tactic(auto)]

pub mod assemble;
pub mod items;
pub mod mark;
pub mod name;
pub mod row;
pub mod table;
