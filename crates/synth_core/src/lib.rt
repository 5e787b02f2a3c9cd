//! Simplification within a bound on the error: the chain of simplifications, for every number of inputs.
//!
//! The crate has six parts, each with one short meaning. `tester` holds what moves are judged by over the
//! whole chain. `unbroken` passes over the moves that the masks show to be broken. `move_trial` makes one of
//! the other moves in a scratch net, and asks the judge whether the moved net keeps the bound. `allowed_move`
//! tries the moves of a member up to the first allowed one. `turn` makes that move, and tidies the moved net.
//! `shrink` goes from member to member, each time from the first move on, since a move that was refused
//! before may be allowed now; it ends, since each move removes literals.
#![tactic(auto)]

mod allowed_move;
mod move_trial;
pub mod shrink;
mod tester;
mod turn;
mod unbroken;
