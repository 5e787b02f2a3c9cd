//! What the errors at a whole set of input vectors tell: whether one exceeds a level, and which is the
//! greatest; and the log by cases that no error exceeds a level.
#![tactic(auto)]

pub mod by_cases;
pub mod comparable;
pub mod vectors;
