//! Tables that are edited in place, and which of them read each signal.
ghost use Rattle.std.specs.Prelude.{◌≡◌, ◌≢◌, ◌<◌, ℕ, true, false, not, length, map, slice_set, All, IfOk};
ghost use Rattle.std.specs.Prelude.{OnOk, OnErr};
ghost use Rattle.std.specs.List.{filter};
ghost use Rattle.semantics.specs.Net.{table_at, constant_table};
ghost use Rattle.semantics.specs.Renamed.{renamed};
ghost use Rattle.semantics.specs.Value.{mark_matches};
ghost use Rattle.chain_semantics.specs.TidyRules.{has, mark_at, clash, is_read, without_pin};
ghost use Rattle.chain_semantics.specs.TidyRules.{with_marks_joined, reading_past};
ghost use Rattle.net_tidy.specs.Flags.{IsDown};
ghost use Rattle.net_tidy.specs.Places.{number_at};
ghost use Rattle.net_tidy.specs.Readers.{IsListed};

use crate::flags::Flags;
use crate::readers::{Readers, reads_at};
use crate::table_draft::TableDraft;
use net_core::items::Signal;
use net_core::net::Net;
use std::alloc::{AllocError, Global};
use std::marker::Model;

/// The tables, each at its place, and for each signal the places of its readers.
#[derive(Drop)]
pub(crate) struct Tables {
    tables: Vec<TableDraft>,
    readers: Readers,
}

impl Model for Tables {
    ghost use Rattle.std.specs.Prelude.{List};
    ghost use Rattle.semantics.specs.Net.{TableValue};
    ghost use Rattle.net_tidy.specs.Readers.{IsListed};

    ghost Value = { List TableValue };

    ghost view = { λ a. a.tables.items };

    ghost invariant = { λ a. IsListed a.tables.items a.readers };
}

/// The tables of a net.
fn copied_tables(alloc: Global, net: &Net) -> Result<Vec<TableDraft>, AllocError>
    ensures { IfOk result (λ tables. tables.items ≡ net.now.tables) }
{
    let mut tables = Vec::new(alloc);
    for t in 0..net.tables() {
        tables.push(TableDraft::from_table(alloc, net.table(t))?)?;
    }
    Ok(tables)
}

/// For each signal of a net the places of the tables that read it.
fn listed(alloc: Global, net: &Net) -> Result<Readers, AllocError>
    ensures { IfOk result (IsListed net.now.tables) }
{
    let mut readers = Readers::empty(alloc, net.signals() as usize)?;
    for t in 0..net.tables() {
        readers.add_each(net.table(t).pins().as_slice(), t)?;
    }
    Ok(readers)
}

/// Lets the table at a place read signal `to` in the place of signal `from`, where it reads `from`, and
/// raises its flag.
fn read_past_at(
    tables: &mut [TableDraft],
    flags: &mut Flags,
    place: u32,
    from: Signal,
    to: Signal,
    inverted: bool,
)
    requires flags { length flags.old ≡ length tables.old }
    requires widths { All (λ t. All (λ marks. length marks ≡ length t.pins) t.rows) tables.old }
    ensures count { length tables.new ≡ length tables.old }
    ensures there { table_at tables.new place ≡ reading_past from to inverted (table_at tables.old place) }
    ensures others { (j : ℕ) → j ≢ place → table_at tables.new j ≡ table_at tables.old j }
    ensures flag_count { length flags.new ≡ length flags.old }
    ensures down { (j : ℕ) → IsDown flags.new j
        → IsDown flags.old j × (j ≡ place → has (table_at tables.old j).pins from ≡ false) }
{
    if (place as usize) < tables.len() {
        let read = tables[place as usize].read_past(from, to, inverted);
        flags.raise_if(place as usize, read);
    }
}

/// Lets each table that reads a signal read another one in its place, with turned marks where the signal is
/// inverted, and raises the flags of these tables.
fn read_past(
    tables: &mut [TableDraft],
    flags: &mut Flags,
    places: &[u32],
    from: Signal,
    to: Signal,
    inverted: bool,
)
    requires flags { length flags.old ≡ length tables.old }
    requires widths { All (λ t. All (λ marks. length marks ≡ length t.pins) t.rows) tables.old }
    requires differ { to ≢ from }
    requires listed { (j : ℕ) → has (table_at tables.old j).pins from ≡ true → has places.now j ≡ true }
    ensures tables { tables.new ≡ map (reading_past from to inverted) tables.old }
    ensures count { length flags.new ≡ length flags.old }
    ensures others { (j : ℕ) → j < length tables.old → IsDown flags.new j
        → IsDown flags.old j × (has (table_at tables.old j).pins from ≡ false) }
{
    for place in places {
        read_past_at(tables, flags, *place, from, to, inverted);
    }
}

/// Puts in the place of each pin of each table its number in `numbers`.
fn renumber_tables(tables: &mut [TableDraft], numbers: &[u32])
    ensures { tables.new ≡ map (renamed (number_at numbers.now)) tables.old }
{
    for table in tables.iter_mut() {
        table.renumber(numbers);
    }
}

impl Tables {
    /// Copies of the tables of a net.
    pub(crate) fn from_net(alloc: Global, net: &Net) -> Result<Tables, AllocError>
        ensures { IfOk result (λ t. t ≡ net.now.tables) }
    {
        let readers = listed(alloc, net)?;
        let tables = copied_tables(alloc, net)?;
        Ok(Tables { tables, readers })
    }

    pub(crate) fn as_slice(&self) -> &[TableDraft]
        ensures { result.now ≡ self.now }
    {
        self.tables.as_slice()
    }

    /// The pins of a table.
    pub(crate) fn pins(&self, t: u32) -> &[Signal]
        requires { t < length self.now }
        ensures { result.now ≡ (table_at self.now t).pins }
    {
        self.tables[t as usize].pins()
    }

    /// Places among which is that of each table that reads a signal.
    pub(crate) fn readers(&self, s: Signal) -> &[u32]
        ensures { (j : ℕ) → has (table_at self.now j).pins s ≡ true → has result.now j ≡ true }
    {
        self.readers.of(s)
    }

    /// Whether some table reads a signal. The last places on its list whose tables do not read it are taken
    /// off.
    pub(crate) fn is_read(&mut self, s: Signal) -> bool
        ensures value { result ≡ is_read self.old s }
        ensures same { self.new ≡ self.old }
    {
        while let Some(place) = self.readers.last(s) {
            if reads_at(&self.tables, place, s) {
                return true;
            }
            self.readers.pop(s);
        }
        false
    }

    /// Takes out the rows of a table that ask the pin at `q` for the other value.
    pub(crate) fn keep_rows(&mut self, t: u32, q: usize, value: bool)
        requires { t < length self.old }
        ensures { self.new ≡ slice_set self.old t (record (table_at self.old t) {
          rows = filter (λ marks. mark_matches (mark_at marks q) value) (table_at self.old t).rows;
        }) }
    {
        self.tables[t as usize].keep_rows(q, value);
    }

    /// Takes out the rows of a table that ask the pins at `p` and `q` for both values, and joins the marks of
    /// the other rows at `p`.
    pub(crate) fn join_rows(&mut self, t: u32, p: usize, q: usize)
        requires within { t < length self.old }
        requires pin { p < length (table_at self.old t).pins }
        requires widths { All (λ marks. length marks ≡ length (table_at self.old t).pins)
            (table_at self.old t).rows }
        ensures { self.new ≡ slice_set self.old t (record (table_at self.old t) {
          rows = map (with_marks_joined p q)
              (filter (λ marks. not (clash (mark_at marks p) (mark_at marks q))) (table_at self.old t).rows);
        }) }
    {
        self.tables[t as usize].join_rows(p, q);
    }

    /// Takes out the pin at `q` of a table, with its column.
    pub(crate) fn remove_pin(&mut self, t: u32, q: usize)
        requires within { t < length self.old }
        requires pin { q < length (table_at self.old t).pins }
        requires widths { All (λ marks. length marks ≡ length (table_at self.old t).pins)
            (table_at self.old t).rows }
        ensures { self.new ≡ slice_set self.old t (without_pin q (table_at self.old t)) }
    {
        self.tables[t as usize].remove_pin(q);
    }

    /// Makes a table the constant of this value.
    pub(crate) fn make_constant(&mut self, t: u32, value: bool)
        requires within { t < length self.old }
        requires row { value ≡ true → 0 < length (table_at self.old t).rows }
        ensures { self.new ≡ slice_set self.old t (constant_table (table_at self.old t).name value) }
    {
        self.tables[t as usize].make_constant(value);
    }

    /// Lets each table that reads a signal read another one in its place, with turned marks where the signal
    /// is inverted, and raises the flags of these tables. Where memory is wanting, nothing is changed.
    pub(crate) fn bypass(
        &mut self,
        flags: &mut Flags,
        from: Signal,
        to: Signal,
        inverted: bool,
    ) -> Result<(), AllocError>
        requires flags { length flags.old ≡ length self.old }
        requires widths { All (λ t. All (λ marks. length marks ≡ length t.pins) t.rows) self.old }
        requires differ { to ≢ from }
        requires from { is_read self.old from ≡ true }
        requires to { is_read self.old to ≡ true }
        ensures tables { OnOk result (self.new ≡ map (reading_past from to inverted) self.old) }
        ensures count { length flags.new ≡ length flags.old }
        ensures others { OnOk result ((j : ℕ) → j < length self.old → IsDown flags.new j
            → IsDown flags.old j × (has (table_at self.old j).pins from ≡ false)) }
        ensures err { OnErr result (self.new ≡ self.old) }
        ensures err_flags { OnErr result (flags.new ≡ flags.old) }
    {
        self.readers.keep_readers(&self.tables, from);
        self.readers.share(from, to)?;
        read_past(
            &mut self.tables,
            flags,
            self.readers.of(from),
            from,
            to,
            inverted,
        );
        self.readers.clear(from);
        Ok(())
    }

    /// The tables, with the number of each pin in `numbers` in the place of the pin.
    pub(crate) fn into_numbered(self, numbers: &[u32]) -> Vec<TableDraft>
        ensures { result.items ≡ map (renamed (number_at numbers.now)) self }
    {
        let mut tables = self.tables;
        renumber_tables(&mut tables, numbers);
        tables
    }
}
