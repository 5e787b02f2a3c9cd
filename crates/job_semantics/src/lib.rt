//! Jobs, reports, certificates, and what each answer of a run says. It has no code but the types `Ending`,
//! `Clause`, `Version`, `Growth`, `Claim` and `Task`.
#![tactic(auto)]

pub mod certificate_clause;
pub mod certificate_examples;
pub mod certificate_laws;
pub mod checking_laws;
pub mod claim;
pub mod demo_examples;
pub mod demo_laws;
pub mod ending;
pub mod examples;
pub mod growth;
pub mod laws;
pub mod task;
pub mod version;
pub mod version_examples;
