//! What is done with the net that a search may begin with. Source: this tool's own jobs.

/// What is done with a net that is given beside the exact one. Definitions and code share this one type.
#[derive(Clone, Copy, Debug, Drop, PartialEq, Eq)]
pub enum Task {
    /// It is certified as it is.
    Certify,
    /// It is refined: simplified along the chain that begins with it.
    Refine,
}
