//! A net that is edited in place, table by table; each table keeps its place, also where others have gone. A
//! flag for each table says where a rule may apply, so that after a step only the tables that it concerns are
//! tried again.
ghost use Rattle.std.specs.Prelude.{◌≡◌, ◌<◌, ◌≤◌, ◌^◌, ◌+◌, ◌++◌, ◌∷◌, [], if◌then◌else◌, ℕ, true, false};
ghost use Rattle.std.specs.Prelude.{not, take, length, map, replicate, slice_set, All, IfOk, OnOk, None};
ghost use Rattle.std.specs.Prelude.{Some, MatchOption};
ghost use Rattle.std.specs.List.{filter};
ghost use Rattle.semantics.specs.Net.{input_count, table_count, signal_count, table_at, constant_table};
ghost use Rattle.semantics.specs.Net.{IsTable, IsSound};
ghost use Rattle.semantics.specs.Value.{mark_matches};
ghost use Rattle.semantics.specs.Replaced.{with_table};
ghost use Rattle.chain_semantics.specs.TidyRules.{has, mark_at, clash, pin_at, is_read, is_constant_signal};
ghost use Rattle.chain_semantics.specs.TidyRules.{constant_pin, constant_value, without_pin};
ghost use Rattle.chain_semantics.specs.TidyRules.{with_marks_joined, is_bypassed, with_bypass};
ghost use Rattle.net_core.specs.Built.{IsBuilt};
ghost use Rattle.net_tidy.specs.Rule.{rule_at, made_by};
ghost use Rattle.net_tidy.specs.Flags.{IsFlagged};
ghost use Rattle.net_tidy.specs.Places.{kept, rank, signals_gone, dense, Stays, emptied, drafted, IsAtRest};
ghost use Rattle.net_tidy.specs.Places.{IsFirstRuleIn, number_at};

use crate::flags::Flags;
use crate::rule::Rule;
use crate::rules::{first_place, has, rule_by};
use crate::table_draft::{TableDraft, number_at};
use crate::tables::Tables;
use net_core::items::{Items, NameList, Signal, SignalList, TableList};
use net_core::name::Name;
use net_core::net::Net;
use std::alloc::{AllocError, Global};
use std::marker::Model;

/// The parts of a net: each table at its place, which of the tables have gone, and a flag for each table,
/// which is down only where no rule applies.
#[derive(Drop)]
pub(crate) struct NetDraft {
    model: Name,
    inputs: NameList,
    tables: Tables,
    outputs: Vec<Signal>,
    gone: Vec<bool>,
    flags: Flags,
}

impl Model for NetDraft {
    ghost use Rattle.std.specs.Prelude.{◌≡◌, ◌+◌, ◌<◌, ◌^◌, length};
    ghost use Rattle.net_tidy.specs.Places.{DraftValue, IsFlaggedIn};

    ghost Value = { DraftValue };

    ghost view = { λ a. record {
      net = record { model = a.model; inputs = a.inputs; tables = a.tables; outputs = a.outputs.items };
      gone = a.gone.items;
    } };

    ghost invariant = { λ a. IsFlaggedIn (record {
      net = record { model = a.model; inputs = a.inputs; tables = a.tables; outputs = a.outputs.items };
      gone = a.gone.items;
    }) a.flags × (length a.gone.items ≡ length a.tables) × (length a.inputs + length a.tables < 2 ^ 31) };
}

/// The next free number behind `number`, which a table takes where it stays.
fn number_after(number: u32, goes: bool) -> u32
    requires { number < 2 ^ 31 }
    ensures { result ≡ (if goes then number else number + 1) }
{
    if goes { number } else { number + 1 }
}

/// The numbers of `inputs` inputs, each of which keeps its number.
fn input_numbers(alloc: Global, inputs: u32) -> Result<Vec<u32>, AllocError>
    ensures count { IfOk result (λ numbers. length numbers.items ≡ inputs) }
    ensures each { IfOk result (λ numbers. (s : ℕ) → s < inputs → number_at numbers.items s ≡ s) }
{
    let mut numbers = Vec::new(alloc);
    for s in 0..inputs {
        numbers.push(s)?;
    }
    Ok(numbers)
}

/// The numbers of the signals once the tables that have gone are left out.
fn numbers_of(alloc: Global, inputs: u32, gone: &[bool]) -> Result<Vec<u32>, AllocError>
    requires { inputs + length gone.now < 2 ^ 31 }
    ensures { IfOk result (λ numbers. (s : ℕ) → s < inputs + length gone.now
        → number_at numbers.items s ≡ rank (signals_gone inputs gone.now) s) }
{
    let mut numbers = input_numbers(alloc, inputs)?;
    let mut next = inputs;
    for i in 0..gone.len() {
        numbers.push(next)?;
        next = number_after(next, gone[i]);
    }
    Ok(numbers)
}

/// The numbers that stand at these signals, as a list.
fn output_list(alloc: Global, signals: &[Signal], numbers: &[u32]) -> Result<SignalList, AllocError>
    ensures { IfOk result (λ list. list ≡ map (number_at numbers.now) signals.now) }
{
    let mut list = Items::new(alloc);
    for signal in signals {
        list.push(number_at(numbers, *signal))?;
    }
    Ok(list)
}

/// Adds a table to a list, if it stays.
fn push_unless(list: &mut TableList, table: &TableDraft, goes: bool) -> Result<(), AllocError>
    requires { IsTable table.now }
    ensures { OnOk result (list.new ≡ list.old ++ kept (goes ∷ []) (table.now ∷ [])) }
{
    if goes {
        return Ok(());
    }
    list.push(table.to_table()?)
}

/// The tables among these that stay, as a list.
fn table_list(alloc: Global, tables: &[TableDraft], gone: &[bool]) -> Result<TableList, AllocError>
    requires formed { All IsTable tables.now }
    requires count { length gone.now ≡ length tables.now }
    ensures { IfOk result (λ list. list ≡ kept gone.now tables.now) }
{
    let mut list = Items::new(alloc);
    for i in 0..tables.len() {
        push_unless(&mut list, &tables[i], gone[i])?;
    }
    Ok(list)
}

/// Whether a signal is a table without pins.
fn is_constant_signal(inputs: u32, tables: &[TableDraft], s: Signal) -> bool
    requires { s < inputs + length tables.now }
    ensures { result ≡ is_constant_signal inputs tables.now s }
{
    inputs <= s && tables[(s - inputs) as usize].pins().is_empty()
}

/// The first pin of a table that reads a table without pins.
fn constant_pin(inputs: u32, tables: &[TableDraft], table: &TableDraft) -> Option<usize>
    requires { All (λ s. s < inputs + length tables.now) table.now.pins }
    ensures { result ≡ constant_pin inputs tables.now table.now }
{
    let pins = table.pins();
    for q in 0..pins.len() {
        if is_constant_signal(inputs, tables, pins[q]) {
            return Some(q);
        }
    }
    None
}

/// The value of a table without pins.
fn constant_value(inputs: u32, tables: &[TableDraft], s: Signal) -> bool
    requires table { s < inputs + length tables.now }
    requires constant { is_constant_signal inputs tables.now s ≡ true }
    ensures { result ≡ constant_value inputs tables.now s }
{
    let table = &tables[(s - inputs) as usize];
    if table.rows().is_empty() {
        !table.plane()
    } else {
        table.plane()
    }
}

impl NetDraft {
    /// A copy of a net, with these flags.
    pub(crate) fn from_net(alloc: Global, net: &Net, flags: Flags) -> Result<NetDraft, AllocError>
        requires { IsFlagged net.now flags }
        ensures ok { IfOk result
            (λ d. d ≡ record { net = net.now; gone = replicate (table_count net.now) false }) }
        ensures built { OnOk result (IsBuilt net.now) }
    {
        Ok(NetDraft {
            model: net.model().copy()?,
            inputs: Items::from_slice(alloc, net.input_names())?,
            gone: vec![in alloc; false; net.tables() as usize]?,
            tables: Tables::from_net(alloc, net)?,
            outputs: Vec::from_slice(alloc, net.output_signals())?,
            flags,
        })
    }

    /// How many inputs there are.
    fn inputs(&self) -> u32
        ensures { result ≡ input_count self.now.net }
    {
        self.inputs.len() as u32
    }

    /// The table at a place.
    fn table(&self, t: u32) -> &TableDraft
        requires { t < table_count self.now.net }
        ensures { result.now ≡ table_at self.now.net.tables t }
    {
        &self.tables.as_slice()[t as usize]
    }

    /// Whether some table reads a signal.
    fn is_read(&mut self, s: Signal) -> bool
        ensures value { result ≡ is_read self.old.net.tables s }
        ensures same { self.new ≡ self.old }
    {
        self.tables.is_read(s)
    }

    /// The first rule that applies at a table, where `read` says whether some table reads it.
    fn rule_where(&self, t: u32, read: bool) -> Option<Rule>
        requires sound { IsSound self.now.net }
        requires within { t < table_count self.now.net }
        requires read { read ≡ is_read self.now.net.tables (input_count self.now.net + t) }
        ensures { result ≡ rule_at self.now.net t }
    {
        let inputs = self.inputs();
        let table = self.table(t);
        rule_by(
            constant_pin(inputs, self.tables.as_slice(), table),
            table.pins(),
            table.rows(),
            table.plane(),
            has(&self.outputs, inputs + t),
            read,
        )
    }

    /// The first rule that applies at a table.
    fn rule_at(&mut self, t: u32) -> Option<Rule>
        requires sound { IsSound self.old.net }
        requires within { t < table_count self.old.net }
        ensures value { result ≡ rule_at self.old.net t }
        ensures same { self.new ≡ self.old }
    {
        let s = self.signal(t);
        let read = self.is_read(s);
        self.rule_where(t, read)
    }

    /// The signal of a table.
    fn signal(&self, t: u32) -> Signal
        requires { t < table_count self.now.net }
        ensures { result ≡ input_count self.now.net + t }
    {
        self.inputs.len() as u32 + t
    }

    /// Takes down the flag of a table at which no rule applies.
    fn settle(&mut self, t: u32)
        requires within { t < table_count self.old.net }
        requires none { Stays self.old.gone t → rule_at self.old.net t ≡ None }
        ensures { self.new ≡ self.old }
    {
        self.flags.take_down(t);
    }

    /// The first rule that applies at a table that stays.
    fn rule_there(&mut self, t: u32) -> Option<Rule>
        requires sound { IsSound self.old.net }
        requires within { t < table_count self.old.net }
        ensures found { MatchOption result (Stays self.old.gone t → rule_at self.old.net t ≡ None)
            (λ rule. Stays self.old.gone t × (rule_at self.old.net t ≡ Some rule)) }
        ensures same { self.new ≡ self.old }
    {
        if self.gone[t as usize] {
            return None;
        }
        self.rule_at(t)
    }

    /// The first rule that applies at a table that stays, where its flag is raised. Where there is none, the
    /// flag is taken down.
    fn seek_at(&mut self, t: u32) -> Option<Rule>
        requires sound { IsSound self.old.net }
        requires within { t < table_count self.old.net }
        ensures found { MatchOption result (Stays self.old.gone t → rule_at self.old.net t ≡ None)
            (λ rule. Stays self.old.gone t × (rule_at self.old.net t ≡ Some rule)) }
        ensures same { self.new ≡ self.old }
    {
        if !self.flags.look(t) {
            return None;
        }
        let found = self.rule_there(t);
        if found.is_none() {
            self.settle(t);
        }
        found
    }

    /// A place before which no table that stays has a rule that applies.
    fn first_place(&self) -> u32
        ensures within { result ≤ table_count self.now.net }
        ensures none { (j : ℕ) → j < result → Stays self.now.gone j → rule_at self.now.net j ≡ None }
    {
        self.flags.first() as u32
    }

    /// A place from `from` on; no table between the two places that stays has a rule that applies.
    fn next_place(&self, from: u32) -> u32
        requires { from ≤ table_count self.now.net }
        ensures from { from ≤ result }
        ensures within { result ≤ table_count self.now.net }
        ensures none { (j : ℕ) → from ≤ j → j < result → Stays self.now.gone j
            → rule_at self.now.net j ≡ None }
    {
        self.flags.next(from as usize) as u32
    }

    /// The first table that stays and has a rule that applies, with its first such rule.
    pub(crate) fn first_rule(&mut self) -> Option<(u32, Rule)>
        requires sound { IsSound self.old.net }
        ensures found { MatchOption result (IsAtRest self.old) (λ f. IsFirstRuleIn self.old f.0 f.1) }
        ensures same { self.new ≡ self.old }
    {
        let end = self.gone.len() as u32;
        let mut t = self.first_place();
        while t < end {
            if let Some(rule) = self.seek_at(t) {
                return Some((t, rule));
            }
            t = self.next_place(t + 1);
        }
        None
    }

    /// Takes out the rows of a table that ask the pin at `q` for the other value.
    fn keep_rows(&mut self, t: u32, q: usize, value: bool)
        requires within { t < table_count self.old.net }
        ensures { self.new ≡ record self.old {
          net = with_table self.old.net t (record (table_at self.old.net.tables t) {
            rows = filter (λ marks. mark_matches (mark_at marks q) value)
                (table_at self.old.net.tables t).rows;
          });
        } }
    {
        self.flags.raise(t);
        self.tables.keep_rows(t, q, value);
    }

    /// Takes out the rows of a table that ask the pins at `p` and `q` for both values, and joins the marks of
    /// the other rows at `p`.
    fn join_rows(&mut self, t: u32, p: usize, q: usize)
        requires within { t < table_count self.old.net }
        requires pin { p < length (table_at self.old.net.tables t).pins }
        requires widths { All (λ marks. length marks ≡ length (table_at self.old.net.tables t).pins)
            (table_at self.old.net.tables t).rows }
        ensures { self.new ≡ record self.old {
          net = with_table self.old.net t (record (table_at self.old.net.tables t) {
            rows = map (with_marks_joined p q)
                (filter (λ marks. not (clash (mark_at marks p) (mark_at marks q)))
                (table_at self.old.net.tables t).rows);
          });
        } }
    {
        self.flags.raise(t);
        self.tables.join_rows(t, p, q);
    }

    /// Takes out the pin at `q` of a table, with its column.
    fn remove_pin(&mut self, t: u32, q: usize)
        requires within { t < table_count self.old.net }
        requires pin { q < length (table_at self.old.net.tables t).pins }
        requires pins_in { All (λ s. s < signal_count self.old.net) (table_at self.old.net.tables t).pins }
        requires widths { All (λ marks. length marks ≡ length (table_at self.old.net.tables t).pins)
            (table_at self.old.net.tables t).rows }
        ensures { self.new ≡ record
            self.old { net = with_table self.old.net t (without_pin q (table_at self.old.net.tables t)) } }
    {
        let inputs = self.inputs();
        let signal = self.tables.pins(t)[q];
        self.flags.raise_signal(inputs, signal);
        self.tables.remove_pin(t, q);
        self.flags.raise_edited(inputs, &self.tables, t);
    }

    /// Makes a table the constant of this value.
    fn make_constant(&mut self, t: u32, value: bool)
        requires within { t < table_count self.old.net }
        requires pins_in { All (λ s. s < signal_count self.old.net) (table_at self.old.net.tables t).pins }
        requires row { value ≡ true → 0 < length (table_at self.old.net.tables t).rows }
        ensures { self.new ≡ record
            self.old {
              net = with_table self.old.net t
                  (constant_table (table_at self.old.net.tables t).name value);
            } }
    {
        let inputs = self.inputs();
        self.flags.raise_signals(inputs, self.tables.pins(t));
        self.tables.make_constant(t, value);
        self.flags.raise_edited(inputs, &self.tables, t);
    }

    /// Makes a table all of whose rows go the constant that it then is, the opposite of its plane.
    fn make_opposite(&mut self, t: u32)
        requires sound { IsSound self.old.net }
        requires within { t < table_count self.old.net }
        ensures { self.new ≡ record self.old {
          net = with_table self.old.net t
              (constant_table (table_at self.old.net.tables t).name
              (not (table_at self.old.net.tables t).plane));
        } }
    {
        let plane = self.table(t).plane();
        self.make_constant(t, !plane);
    }

    /// Takes out a pin that reads a constant, after the rows that ask this pin for the other value.
    fn fix_pin(&mut self, t: u32, q: usize)
        requires sound { IsSound self.old.net }
        requires within { t < table_count self.old.net }
        requires pin { q < length (table_at self.old.net.tables t).pins }
        requires constant { is_constant_signal (input_count self.old.net) self.old.net.tables
            (pin_at (table_at self.old.net.tables t) q) ≡ true }
        ensures { self.new ≡ record self.old { net = made_by self.old.net t (Rule.ConstantPin q) } }
    {
        let table = self.table(t);
        let value = constant_value(self.inputs(), self.tables.as_slice(), table.pins()[q]);
        if table.allows(q, value) {
            self.keep_rows(t, q, value);
            self.remove_pin(t, q);
        } else {
            self.make_opposite(t);
        }
    }

    /// Takes out a pin with the signal of an earlier pin, after the rows that ask the two pins for both
    /// values.
    fn join_pin(&mut self, t: u32, q: usize)
        requires sound { IsSound self.old.net }
        requires within { t < table_count self.old.net }
        requires pin { q < length (table_at self.old.net.tables t).pins }
        requires repeated { has (take q (table_at self.old.net.tables t).pins)
            (pin_at (table_at self.old.net.tables t) q) ≡ true }
        ensures { self.new ≡ record self.old { net = made_by self.old.net t (Rule.RepeatedPin q) } }
    {
        let table = self.table(t);
        let pins = table.pins();
        let p = first_place(pins, pins[q]);
        if table.agrees(p, q) {
            self.join_rows(t, p, q);
            self.remove_pin(t, q);
        } else {
            self.make_opposite(t);
        }
    }

    /// Makes a table whose value is constant the canonical constant of that value.
    fn make_canonical(&mut self, t: u32)
        requires sound { IsSound self.old.net }
        requires within { t < table_count self.old.net }
        ensures { self.new ≡ record self.old { net = made_by self.old.net t Rule.Constant } }
    {
        let table = self.table(t);
        let value = !table.rows().is_empty() && table.plane();
        self.make_constant(t, value);
    }

    /// Lets each table that reads a buffer or an inverter read that table's pin in its place.
    fn bypass(&mut self, t: u32) -> Result<(), AllocError>
        requires sound { IsSound self.old.net }
        requires within { t < table_count self.old.net }
        requires rule { is_bypassed self.old.net t ≡ true }
        ensures ok { OnOk result (self.new ≡ record self.old { net = with_bypass self.old.net t }) }
    {
        let from = self.signal(t);
        let table = self.table(t);
        let (to, inverted) = (table.pins()[0], table.inverts());
        self.tables.bypass(&mut self.flags, from, to, inverted)?;
        self.flags.raise(t);
        Ok(())
    }

    /// Lets a table read nothing.
    fn empty(&mut self, t: u32)
        requires sound { IsSound self.old.net }
        requires within { t < table_count self.old.net }
        ensures { self.new ≡ record
            self.old { net = with_table self.old.net t (emptied (table_at self.old.net.tables t)) } }
    {
        if !self.table(t).pins().is_empty() {
            self.make_constant(t, false);
        }
    }

    /// Notes that a table has gone.
    fn leave(&mut self, t: u32)
        requires { t < table_count self.old.net }
        ensures { self.new ≡ record self.old { gone = slice_set self.old.gone t true } }
    {
        self.gone[t as usize] = true;
    }

    /// Applies its first rule to a table.
    pub(crate) fn apply(&mut self, t: u32, rule: Rule) -> Result<(), AllocError>
        requires sound { IsSound self.old.net }
        requires first { IsFirstRuleIn self.old t rule }
        ensures { OnOk result (self.new ≡ drafted self.old t rule) }
    {
        match rule {
            Rule::ConstantPin(q) => self.fix_pin(t, q),
            Rule::DashedPin(q) => self.remove_pin(t, q),
            Rule::RepeatedPin(q) => self.join_pin(t, q),
            Rule::Constant => self.make_canonical(t),
            Rule::Bypass => return self.bypass(t),
            Rule::Removal => {
                self.empty(t);
                self.leave(t);
            }
        }
        Ok(())
    }

    /// The net of the tables that stay.
    pub(crate) fn into_net(self) -> Result<Net, AllocError>
        requires draft { IsSound self.net }
        requires sound { IsSound (dense self) }
        requires few_outputs { length self.net.outputs < 2 ^ 31 }
        ensures { IfOk result (λ n. n ≡ dense self) }
    {
        let alloc = *self.outputs.allocator();
        let numbers = numbers_of(alloc, self.inputs.len() as u32, &self.gone)?;
        let tables = table_list(alloc, &self.tables.into_numbered(&numbers), &self.gone)?;
        let outputs = output_list(alloc, &self.outputs, &numbers)?;
        Net::from_sound(alloc, self.model, self.inputs, tables, outputs)
    }
}
