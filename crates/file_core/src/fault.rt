//! The one fault of the outside.

/// A call on files or on a sink failed. The count of faults tells this too.
#[derive(Clone, Copy, Debug, PartialEq, Eq)]
pub struct FileFault;
