//! Tidying, and whether a net needs it.
ghost use Rattle.std.specs.Prelude.{◌↔◌, IsTrue, IfOk};
ghost use Rattle.chain_semantics.specs.Tidy.{IsTidy, IsTidiedFrom};
ghost use Rattle.net_tidy.specs.Flags.{IsFlagged};

use crate::first_flags::first_flags;
use crate::flags::Flags;
use crate::net_draft::NetDraft;
use crate::net_rules::rule_at;
use net_core::net::Net;
use std::alloc::{AllocError, Global};

/// The net after all steps of tidying, where the flags at the start are these.
fn apply_rules(alloc: Global, net: &Net, flags: Flags) -> Result<Net, AllocError>
    requires { IsFlagged net.now flags }
    ensures { IfOk result (λ n. IsTidiedFrom net.now n) }
{
    let mut draft = NetDraft::from_net(alloc, net, flags)?;
    while let Some((t, rule)) = draft.first_rule() {
        draft.apply(t, rule)?;
    }
    draft.into_net()
}

/// The net after all steps of tidying. What the tidied net keeps follows from the laws about tidying. A net
/// in which no rule applies is not copied.
pub fn tidy(alloc: Global, net: Net) -> Result<Net, AllocError>
    ensures { IfOk result (λ n. IsTidiedFrom net n) }
{
    let flags = first_flags(alloc, &net)?;
    if flags.has_raised() {
        apply_rules(alloc, &net, flags)
    } else {
        Ok(net)
    }
}

/// Whether no rule applies to a net. The test takes no memory.
pub fn is_tidy(net: &Net) -> bool
    ensures { IsTrue result ↔ IsTidy net.now }
{
    for t in 0..net.tables() {
        if rule_at(net, t).is_some() {
            return false;
        }
    }
    true
}
