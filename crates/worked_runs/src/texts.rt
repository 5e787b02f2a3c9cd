//! The half adder as it is simplified within larger bounds.

pub(crate) const BOTH_CONSTANT: &[u8] =
    b".model ha\n.inputs a b\n.outputs s c\n.names s\n.names c\n.end\n";

pub(crate) const CARRY_COPIED: &[u8] =
    b".model ha\n.inputs a b\n.outputs s c\n.names s\n.names b c\n1 1\n.end\n";
