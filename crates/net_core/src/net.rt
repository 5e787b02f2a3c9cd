//! Nets: sound, with an order of their tables, and of a size that fits their numbers.
ghost use Rattle.std.specs.Prelude.{◌≡◌, ℕ, ◌+◌, ◌<◌, ◌^◌, false, length, slice_index, slice_index_or};
ghost use Rattle.std.specs.Prelude.{sum_by, All, None, IfOk, IfErr, OnOk, OnErr};
ghost use Rattle.semantics.specs.Net.{IsName, IsTable, IsAcyclic, IsSound, input_count, table_count};
ghost use Rattle.semantics.specs.Net.{signal_count, literal_count, signal_names, name_of, table_at};
ghost use Rattle.semantics.specs.Net.{table_literals};
ghost use Rattle.semantics.specs.Value.{value_of};
ghost use Rattle.semantics.specs.Order.{IsOrderOf};
ghost use Rattle.semantics.specs.Refusals.{net_refusal};
ghost use Rattle.semantics.specs.Replaced.{replaced, with_table};
ghost use Rattle.net_core.specs.Built.{IsBuilt, IsWired};
ghost use Rattle.net_core.specs.Refused.{IsRefusalOf};

use crate::limits::first_limit;
use crate::names::{first_doubled, name_at};
use crate::order::{are_known_at, order_of, order_of_acyclic};
use crate::refusal::NetRefusal;
use crate::undriven::first_undriven;
use net_parts::assemble::Assemble;
use net_parts::items::{NameList, Signal, SignalList, TableList};
use net_parts::name::Name;
use net_parts::table::Table;
use std::alloc::{AllocError, Global};
use std::marker::Model;

/// A sound net. Signals are numbered from 0: the inputs, then the tables, which may be in any order.
#[derive(Drop)]
pub struct Net {
    model: Name,
    inputs: NameList,
    tables: TableList,
    outputs: SignalList,
    order: Vec<u32>,
}

impl Model for Net {
    ghost use Rattle.std.specs.Prelude.{length};
    ghost use Rattle.semantics.specs.Net.{NetValue};
    ghost use Rattle.semantics.specs.Order.{IsOrderOf};
    ghost use Rattle.net_core.specs.Built.{IsBuilt};

    ghost Value = { NetValue };

    ghost view = { λ a. record {
      model = a.model;
      inputs = a.inputs;
      tables = a.tables;
      outputs = a.outputs;
    } };

    ghost invariant = { λ a. IsBuilt
        (record { model = a.model; inputs = a.inputs; tables = a.tables; outputs = a.outputs })
        × IsOrderOf (length a.inputs) a.tables a.order.items };
}

/// Shows that each of these is a name, which the type of each holds: one step for each name.
fn see_names(names: &[Name])
    ensures { All IsName names.now }
{
    for name in names {
        let _ = name.bytes();
    }
}

/// Shows that the rows of each of these tables fit it, which the type of each holds: one step for each table.
fn see_tables(tables: &[Table])
    ensures { All IsTable tables.now }
{
    for table in tables {
        let _ = table.name();
    }
}

/// How many marks of the tables ask for a value.
fn literal_count(tables: &[Table]) -> u64
    requires { sum_by table_literals tables.now < 2 ^ 63 }
    ensures { result ≡ sum_by table_literals tables.now }
{
    let mut count = 0;
    for table in tables {
        count += table.literals();
    }
    count
}

/// Sets `vals[s]` to the value of each signal `s` at the input vector `x`, in one pass over the tables in
/// their order.
fn eval_tables(tables: &[Table], order: &[u32], x: &[bool], vals: &mut [bool])
    requires order { IsOrderOf (length x.now) tables.now order.now }
    requires room { length vals.old ≡ length x.now + length tables.now }
    ensures { (s : ℕ) → s < length x.now + length tables.now
        → slice_index_or vals.new s false ≡ value_of (length x.now) tables.now x.now s }
{
    vals[..x.len()].copy_from_slice(x);
    for i in order {
        let at = *i as usize;
        let value = tables[at].value(vals);
        vals[x.len() + at] = value;
    }
}

impl Net {
    /// The net of these parts, whose tables stand in this order. The call takes no memory, and one step for
    /// each name.
    pub fn from_ordered(
        model: Name,
        inputs: NameList,
        tables: TableList,
        outputs: SignalList,
        order: Vec<u32>,
    ) -> Net
        requires wired { IsWired
            (record { model = model; inputs = inputs; tables = tables; outputs = outputs }) }
        requires order { IsOrderOf (length inputs) tables order.items }
        ensures { result ≡ record { model = model; inputs = inputs; tables = tables; outputs = outputs } }
    {
        let _ = model.bytes();
        see_names(inputs.as_slice());
        see_tables(tables.as_slice());
        Net {
            model,
            inputs,
            tables,
            outputs,
            order,
        }
    }

    /// The net of these parts, which are known to make a net. The call takes time about in proportion to the
    /// size of the parts.
    pub fn from_sound(
        alloc: Global,
        model: Name,
        inputs: NameList,
        tables: TableList,
        outputs: SignalList,
    ) -> Result<Net, AllocError>
        requires wired { IsWired
            (record { model = model; inputs = inputs; tables = tables; outputs = outputs }) }
        requires acyclic { IsAcyclic (length inputs) tables }
        ensures { IfOk result
            (λ n. n ≡ record { model = model; inputs = inputs; tables = tables; outputs = outputs }) }
    {
        let order = order_of_acyclic(alloc, inputs.len() as u32, tables.as_slice())?;
        Ok(Net::from_ordered(model, inputs, tables, outputs, order))
    }

    /// The small sound net of these parts, or the first reason why they make none, in the order of the
    /// refusals.
    pub fn from_parts(
        alloc: Global,
        model: Name,
        inputs: NameList,
        tables: TableList,
        outputs: SignalList,
    ) -> Result<Net, NetRefusal>
        requires few_signals { length inputs + length tables < 2 ^ 31 }
        ensures ok { IfOk result
            (λ n. n ≡ record { model = model; inputs = inputs; tables = tables; outputs = outputs }) }
        ensures accepted { OnOk result
            (net_refusal (record { model = model; inputs = inputs; tables = tables; outputs = outputs })
            ≡ None) }
        ensures refused { IfErr result
            (IsRefusalOf (record { model = model; inputs = inputs; tables = tables; outputs = outputs })) }
    {
        if let Some(name) = first_doubled(alloc, &inputs, &tables)? {
            return Err(NetRefusal::Doubled(name.copy()?));
        }
        if outputs.is_empty() {
            return Err(NetRefusal::NoOutput);
        }
        let signals = (inputs.len() + tables.len()) as u32;
        if let Some(signal) = first_undriven(signals, &tables, &outputs) {
            return Err(NetRefusal::Undriven(signal));
        }
        let count = inputs.len() as u32;
        let order = match order_of(alloc, count, tables.as_slice())? {
            Ok(order) => order,
            Err(table) => return Err(NetRefusal::Cycle(count + table)),
        };
        if let Some(which) = first_limit(&inputs, &tables, &outputs) {
            return Err(NetRefusal::Limit(which));
        }
        Ok(Net::from_ordered(model, inputs, tables, outputs, order))
    }

    /// The name of the model.
    pub fn model(&self) -> &Name
        ensures value { result.now ≡ self.now.model }
    {
        &self.model
    }

    /// How many inputs there are.
    pub fn inputs(&self) -> u32
        ensures value { result ≡ input_count self.now }
        ensures built { IsBuilt self.now }
    {
        self.inputs.len() as u32
    }

    /// Shows that the net is sound, which its type holds. The call does nothing.
    pub fn see_sound(&self)
        ensures sound { IsSound self.now }
        ensures built { IsBuilt self.now }
    {
        let _ = self.inputs();
    }

    /// How many tables there are.
    pub fn tables(&self) -> u32
        ensures value { result ≡ table_count self.now }
        ensures built { IsBuilt self.now }
    {
        self.tables.len() as u32
    }

    /// How many signals there are: the inputs and the tables.
    pub fn signals(&self) -> u32
        ensures value { result ≡ signal_count self.now }
        ensures built { IsBuilt self.now }
    {
        (self.inputs.len() + self.tables.len()) as u32
    }

    /// How many outputs there are.
    pub fn outputs(&self) -> u32
        ensures value { result ≡ length self.now.outputs }
        ensures built { IsBuilt self.now }
    {
        self.outputs.len() as u32
    }

    /// How many marks of the net ask for a value.
    pub fn literals(&self) -> u64
        requires { literal_count self.now < 2 ^ 63 }
        ensures value { result ≡ literal_count self.now }
    {
        literal_count(self.tables.as_slice())
    }

    /// The table of signal `inputs() + t`.
    pub fn table(&self, t: u32) -> &Table
        requires { t < table_count self.now }
        ensures value { result.now ≡ table_at self.now.tables t }
        ensures built { IsBuilt self.now }
    {
        self.tables.get(t as usize)
    }

    /// The signal of an output.
    pub fn output(&self, i: u32) -> Signal
        requires { i < length self.now.outputs }
        ensures value { result ≡ slice_index self.now.outputs i }
    {
        *self.outputs.get(i as usize)
    }

    /// The allocator of the net.
    pub(crate) fn allocator(&self) -> &Global {
        self.order.allocator()
    }

    /// The signals of the outputs.
    pub fn output_signals(&self) -> &[Signal]
        ensures { result.now ≡ self.now.outputs }
    {
        self.outputs.as_slice()
    }

    /// The names of the inputs.
    pub fn input_names(&self) -> &[Name]
        ensures { result.now ≡ self.now.inputs }
    {
        self.inputs.as_slice()
    }

    /// The name of an input or of a table.
    pub fn signal_name(&self, s: Signal) -> &Name
        requires { s < signal_count self.now }
        ensures value { result.now ≡ name_of (signal_names self.now) s }
    {
        name_at(self.inputs.as_slice(), self.tables.as_slice(), s as usize)
    }

    /// The numbers of the tables, each behind the tables that it reads.
    pub fn order(&self) -> &[u32]
        ensures { IsOrderOf (input_count self.now) self.now.tables result.now }
    {
        self.order.as_slice()
    }

    /// Sets `vals[s]` to the value of each signal `s` at the input vector `x`.
    pub fn eval(&self, x: &[bool], vals: &mut [bool])
        requires width { length x.now ≡ input_count self.now }
        requires room { length vals.old ≡ signal_count self.now }
        ensures { (s : ℕ) → s < signal_count self.now
            → slice_index_or vals.new s false ≡ value_of (input_count self.now) self.now.tables x.now s }
    {
        eval_tables(self.tables.as_slice(), &self.order, x, vals);
    }

    /// An equal net, on the same allocator.
    pub fn copy(&self) -> Result<Net, AllocError>
        ensures { IfOk result (λ n. n ≡ self.now) }
    {
        Ok(Net {
            model: self.model.copy()?,
            inputs: self.inputs.copy()?,
            tables: self.tables.copy()?,
            outputs: self.outputs.copy()?,
            order: Vec::from_slice(*self.order.allocator(), &self.order)?,
        })
    }

    /// The net with `tables` in the place of its tables, in the order `order`, on the same allocator.
    fn with_tables(&self, tables: TableList, order: Vec<u32>) -> Result<Net, AllocError>
        requires wired { IsWired (record self.now { tables = tables }) }
        requires order { IsOrderOf (input_count self.now) tables order.items }
        ensures { IfOk result (λ n. n ≡ record self.now { tables = tables }) }
    {
        let model = self.model.copy()?;
        let inputs = self.inputs.copy()?;
        let outputs = self.outputs.copy()?;
        Ok(Net::from_ordered(model, inputs, tables, outputs, order))
    }

    /// The net with another table in the place of table `t`, on the same allocator. The new table is not
    /// copied. The order of the net stays where it is an order of the new net too.
    pub fn with_table(&self, t: u32, table: Table) -> Result<Net, AllocError>
        requires within { t < table_count self.now }
        requires same_name { table.name ≡ (table_at self.now.tables t).name }
        requires acyclic { IsAcyclic (input_count self.now) (replaced self.now.tables t table) }
        ensures { IfOk result (λ n. n ≡ with_table self.now t table) }
    {
        let inputs = self.inputs();
        let known = are_known_at(inputs, &self.order, t, table.pins().as_slice());
        let alloc = *self.order.allocator();
        let tables = self.tables.copy_with(t as usize, table)?;
        if known {
            let order = Vec::from_slice(alloc, &self.order)?;
            return self.with_tables(tables, order);
        }
        let order = order_of_acyclic(alloc, inputs, tables.as_slice())?;
        self.with_tables(tables, order)
    }

    /// Puts another table in the place of table `t`, and returns the table that stood there. No table is
    /// copied. Where the order is still one, it stays, and no memory is taken; where there is no memory for
    /// another order, the net stays as it was.
    pub fn exchange_table(&mut self, t: u32, table: Table) -> Result<Table, AllocError>
        requires within { t < table_count self.old }
        requires same_name { table.name ≡ (table_at self.old.tables t).name }
        requires acyclic { IsAcyclic (input_count self.old) (replaced self.old.tables t table) }
        ensures ok { OnOk result (self.new ≡ with_table self.old t table) }
        ensures err { OnErr result (self.new ≡ self.old) }
        ensures taken { IfOk result (λ before. before ≡ table_at self.old.tables t) }
    {
        let inputs = self.inputs.len() as u32;
        let alloc = *self.order.allocator();
        let known = are_known_at(inputs, &self.order, t, table.pins().as_slice());
        let before = self.tables.replace(t as usize, table);
        if known {
            return Ok(before);
        }
        match order_of_acyclic(alloc, inputs, self.tables.as_slice()) {
            Ok(order) => {
                self.order = order;
                Ok(before)
            }
            Err(fault) => {
                self.tables.replace(t as usize, before);
                Err(fault)
            }
        }
    }
}

impl Assemble for Net {
    ghost net = { λ n. n };

    fn assemble(
        alloc: Global,
        model: Name,
        inputs: NameList,
        tables: TableList,
        outputs: SignalList,
    ) -> Result<Net, AllocError> {
        Net::from_sound(alloc, model, inputs, tables, outputs)
    }
}
