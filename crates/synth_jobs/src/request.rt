//! What is to be done with two nets.
use job_semantics::task::Task;
use net_core::net::Net;
use proof_semantics::constraint::Constraint;

/// Two nets, and what is done with the second.
#[derive(Drop)]
pub struct Request {
    pub task: Task,
    pub aim: Constraint,
    /// The net against which errors are counted.
    pub exact: Net,
    /// The net that is certified or refined.
    pub begin: Net,
}
