//! The marks of rows, the type that definitions and code share.

pub use semantics::mark::Mark;
