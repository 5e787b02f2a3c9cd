//! The joint net of two nets, and its miter at an error level: the formula that says that some error exceeds
//! it.
#![tactic(auto)]

mod copies;
pub mod joint;
pub mod level;
mod quality;
