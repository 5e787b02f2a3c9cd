//! Full adders and half adders in a graph: nodes that are a sum or a carry over the same leaves.
//!
//! However its gates are made, a node is known by its table over a cut. Source: functional matching over
//! cuts.
ghost use Rattle.std.specs.Prelude.{◌≤◌};

use crate::adder::Adder;
use crate::cuts::{Cut, Cuts, Leaves, NO_LEAF};
use aig_core::graph::Aig;
use aig_core::literal::{Literal, constant};
use std::alloc::{AllocError, Global};
use std::collections::HashMap;

/// Stands where there is no further role.
const NO_ROLE: usize = usize::MAX;

/// How many nodes of one kind over the same leaves are looked at.
pub const MOST_ROLES: u32 = 32;

/// Whether a node is a sum of leaves or their carry.
#[derive(Clone, Copy, PartialEq, Eq, Drop)]
pub enum Kind {
    Sum,
    Carry,
}

impl Kind {
    /// The other one.
    pub fn other(self) -> Kind {
        match self {
            Kind::Sum => Kind::Carry,
            Kind::Carry => Kind::Sum,
        }
    }
}

/// How a node counts its leaves: leaf i is turned over where bit i of `turned` is set, and the node itself
/// where it is opposite.
#[derive(Clone, Copy, Drop)]
pub struct Form {
    pub kind: Kind,
    turned: u8,
    opposite: bool,
}

/// A node that is a sum or a carry over the leaves of a group, and where the roles of this kind before it
/// stand: that of the same node, and that over the same leaves.
#[derive(Clone, Copy, Drop)]
pub struct Role {
    pub node: u32,
    pub group: usize,
    pub form: Form,
    pub before_of_node: usize,
    pub before_of_group: usize,
}

/// Where the last role of each kind stands.
#[derive(Clone, Copy, Drop)]
struct Lasts {
    sum: usize,
    carry: usize,
}

impl Lasts {
    /// Of no role.
    fn none() -> Lasts {
        Lasts {
            sum: NO_ROLE,
            carry: NO_ROLE,
        }
    }

    /// That of a kind.
    fn of_kind(self, kind: Kind) -> usize {
        match kind {
            Kind::Sum => self.sum,
            Kind::Carry => self.carry,
        }
    }

    /// With another of a kind.
    fn with(self, kind: Kind, at: usize) -> Lasts {
        match kind {
            Kind::Sum => Lasts {
                sum: at,
                carry: self.carry,
            },
            Kind::Carry => Lasts {
                sum: self.sum,
                carry: at,
            },
        }
    }
}

/// Leaves over which some node is a sum or a carry.
#[derive(Clone, Copy, Drop)]
struct Group {
    leaves: Leaves,
    lasts: Lasts,
}

/// The roles of a node, and whether it is an input, or the sum or the carry of a full adder.
#[derive(Clone, Copy, Drop)]
struct Roles {
    lasts: Lasts,
    is_good: bool,
}

/// The form of a sum.
fn sum_form(opposite: bool) -> Option<Form> {
    Some(Form {
        kind: Kind::Sum,
        turned: 0,
        opposite,
    })
}

/// The form of a carry.
fn carry_form(turned: u8, opposite: bool) -> Option<Form> {
    Some(Form {
        kind: Kind::Carry,
        turned,
        opposite,
    })
}

/// The form of a node by its table over three leaves.
fn form_of_three(table: u8) -> Option<Form> {
    match table {
        0x96 => sum_form(false),
        0x69 => sum_form(true),
        0xE8 => carry_form(0, false),
        0xD4 => carry_form(1, false),
        0xB2 => carry_form(2, false),
        0x71 => carry_form(3, false),
        0x8E => carry_form(4, false),
        0x4D => carry_form(5, false),
        0x2B => carry_form(6, false),
        0x17 => carry_form(7, false),
        _ => None,
    }
}

/// The form of a node by its table over two leaves.
fn form_of_two(table: u8) -> Option<Form> {
    match table {
        0x66 => sum_form(false),
        0x99 => sum_form(true),
        0x88 => carry_form(0, false),
        0x44 => carry_form(1, false),
        0x22 => carry_form(2, false),
        0x11 => carry_form(3, false),
        0x77 => carry_form(0, true),
        0xBB => carry_form(1, true),
        0xDD => carry_form(2, true),
        0xEE => carry_form(3, true),
        _ => None,
    }
}

/// The form of a node by one of its cuts, if it is a sum or a carry.
fn form_of(cut: Cut) -> Option<Form> {
    if cut.leaves.is_full() {
        form_of_three(cut.table)
    } else if cut.leaves.second != NO_LEAF {
        form_of_two(cut.table)
    } else {
        None
    }
}

/// The literal of a node, turned over or not; the constant false where there is no node.
fn literal_of(node: u32, turned: bool) -> Literal {
    if node < 1 << 31 {
        2 * node + u32::from(turned)
    } else {
        constant(false)
    }
}

/// The sums and the carries among a graph's nodes. What is found for a node is kept while the graph grows.
#[derive(Drop)]
pub struct Adders {
    cuts: Cuts,
    known: u32,
    numbers: HashMap<Leaves, usize>,
    groups: Vec<Group>,
    nodes: Vec<Roles>,
    roles: Vec<Role>,
}

impl Adders {
    /// Of no node.
    pub fn new(alloc: Global) -> Adders {
        Adders {
            cuts: Cuts::new(alloc),
            known: 0,
            numbers: HashMap::new(alloc),
            groups: Vec::new(alloc),
            nodes: Vec::new(alloc),
            roles: Vec::new(alloc),
        }
    }

    /// Finds what the nodes are that are new in the graph.
    pub fn extend(&mut self, g: &Aig) -> Result<(), AllocError> {
        self.cuts.extend(g)?;
        for node in self.known..g.nodes() {
            self.nodes.push(Roles {
                lasts: Lasts::none(),
                is_good: node != 0 && node <= g.inputs(),
            })?;
            self.push_node(node)?;
            self.known = node + 1;
        }
        Ok(())
    }

    /// Adds the roles of a node.
    fn push_node(&mut self, node: u32) -> Result<(), AllocError> {
        for at in self.cuts.start(node)..self.cuts.end(node) {
            if let Some(cut) = self.cuts.cut(at) {
                if let Some(form) = form_of(cut) {
                    self.push_role(node, cut.leaves, form)?;
                }
            }
        }
        Ok(())
    }

    /// The number of the group of some leaves; it is made where there is none.
    fn group_of(&mut self, leaves: Leaves) -> Result<usize, AllocError> {
        self.groups.reserve(1)?;
        let count = self.groups.len();
        let group = *self.numbers.entry(leaves)?.or_insert(count);
        if group == count {
            self.groups.push(Group {
                leaves,
                lasts: Lasts::none(),
            })?;
        }
        Ok(group)
    }

    /// Adds a role of a node.
    fn push_role(&mut self, node: u32, leaves: Leaves, form: Form) -> Result<(), AllocError> {
        let group = self.group_of(leaves)?;
        let role = Role {
            node,
            group,
            form,
            before_of_node: self.last_of_node(node, form.kind),
            before_of_group: self.last_of_group(group, form.kind),
        };
        let at = self.roles.len();
        self.roles.push(role)?;
        if let Some(roles) = self.nodes.get_mut(node as usize) {
            roles.lasts = roles.lasts.with(form.kind, at);
        }
        if let Some(of_group) = self.groups.get_mut(group) {
            of_group.lasts = of_group.lasts.with(form.kind, at);
        }
        if leaves.is_full() {
            self.mark_role(&role);
        }
        Ok(())
    }

    /// Marks a node as good, and where it is the first of its kind those that it makes full adders with.
    fn mark_role(&mut self, role: &Role) {
        let other = self.last_of_group(role.group, role.form.kind.other());
        if other == NO_ROLE {
            return;
        }
        self.mark_node(role.node);
        if role.before_of_group == NO_ROLE {
            self.mark_group(other);
        }
    }

    /// Marks a node as good.
    fn mark_node(&mut self, node: u32) {
        if let Some(roles) = self.nodes.get_mut(node as usize) {
            roles.is_good = true;
        }
    }

    /// Marks the nodes of a kind over the same leaves as good, from the last one on.
    fn mark_group(&mut self, last: usize) {
        let mut at = last;
        for _ in 0..MOST_ROLES {
            match self.role(at) {
                Some(role) => {
                    self.mark_node(role.node);
                    at = role.before_of_group;
                }
                None => return,
            }
        }
    }

    /// The role at a place.
    pub fn role(&self, at: usize) -> Option<Role> {
        self.roles.get(at).copied()
    }

    /// Where the last role of a kind of a node stands.
    pub fn last_of_node(&self, node: u32, kind: Kind) -> usize {
        match self.nodes.get(node as usize) {
            Some(roles) => roles.lasts.of_kind(kind),
            None => NO_ROLE,
        }
    }

    /// Where the last role of a kind over the leaves of a group stands.
    pub fn last_of_group(&self, group: usize, kind: Kind) -> usize {
        match self.groups.get(group) {
            Some(of_group) => of_group.lasts.of_kind(kind),
            None => NO_ROLE,
        }
    }

    /// The leaves of a group.
    fn leaves(&self, group: usize) -> Leaves {
        match self.groups.get(group) {
            Some(of_group) => of_group.leaves,
            None => Leaves::none(),
        }
    }

    /// The adder of a sum and a carry over the same leaves.
    pub fn adder(&self, sum: &Role, carry: &Role) -> Adder {
        let leaves = self.leaves(sum.group);
        let turned = carry.form.turned;
        let odd = turned.count_ones() % 2 == 1;
        Adder {
            first: literal_of(leaves.first, turned & 1 != 0),
            second: literal_of(leaves.second, turned & 2 != 0),
            third: literal_of(leaves.third, turned & 4 != 0),
            sum: literal_of(sum.node, odd != sum.form.opposite),
            carry: literal_of(carry.node, carry.form.opposite),
        }
    }

    /// The adder of a sum, with no leaf turned over and the constant false in place of the carry.
    pub fn adder_without_carry(&self, sum: &Role) -> Adder {
        let leaves = self.leaves(sum.group);
        Adder {
            first: literal_of(leaves.first, false),
            second: literal_of(leaves.second, false),
            third: literal_of(leaves.third, false),
            sum: literal_of(sum.node, sum.form.opposite),
            carry: constant(false),
        }
    }

    /// Whether there are three leaves in a group.
    pub fn is_of_three(&self, group: usize) -> bool {
        self.leaves(group).is_full()
    }

    /// What a leaf costs: much where it is neither an input nor of a full adder, and little where there is
    /// none.
    fn leaf_cost(&self, leaf: u32) -> u32
        ensures { result ≤ 40 }
    {
        if leaf == NO_LEAF {
            return 1;
        }
        match self.nodes.get(leaf as usize) {
            Some(roles) if roles.is_good => 0,
            _ => 40,
        }
    }

    /// What the leaves of a group cost: little where the search goes on well from them.
    pub fn cost(&self, group: usize) -> u32
        ensures { result ≤ 120 }
    {
        let leaves = self.leaves(group);
        self.leaf_cost(leaves.first) + self.leaf_cost(leaves.second) + self.leaf_cost(leaves.third)
    }
}
