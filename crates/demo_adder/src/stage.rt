//! The two tables of each stage: those of a half adder, and then those of full adders.
ghost use Rattle.std.specs.Prelude.{◌≡◌, ◌+◌, ◌≤◌, ◌<◌, [], ◌∷◌, ◌++◌, length, codes, All, IfOk, OnOk};
ghost use Rattle.quality_semantics.specs.Forms.{form};
ghost use Rattle.job_semantics.specs.Demo.{demo_name, demo_table, sum_signal, carry_signal, sum_form};
ghost use Rattle.job_semantics.specs.Demo.{carry_form, stage_tables};

use bus_nets::forms::{AND2, MAJ, XOR2, XOR3};
use net_core::items::{Signal, SignalList, TableList};
use net_core::mark::Mark;
use net_core::name::Name;
use net_core::row::rows_of;
use net_core::table::Table;
use std::alloc::{AllocError, Global};

/// The signal of a stage's bit of the sum.
pub fn sum_signal(width: u32, stage: u32) -> Signal
    requires narrow { width ≤ 32 }
    requires within { stage < width }
    ensures { result ≡ sum_signal width stage }
{
    2 * width + 2 * stage
}

/// The signal of a stage's carry.
pub fn carry_signal(width: u32, stage: u32) -> Signal
    requires narrow { width ≤ 32 }
    requires within { stage < width }
    ensures { result ≡ carry_signal width stage }
{
    2 * width + 2 * stage + 1
}

/// The table of N pins with these rows, of plane 1.
fn table_of<const N: usize>(
    alloc: Global,
    name: Name,
    signals: &[Signal; N],
    rows: &[[Mark; N]],
) -> Result<Table, AllocError>
    requires { All (λ marks. length marks ≡ length signals.now) rows.now }
    ensures { IfOk result (λ t. t ≡ demo_table name (form signals.now rows.now)) }
{
    let pins = SignalList::from_slice(alloc, signals)?;
    let rows = rows_of(alloc, rows)?;
    Ok(Table::new(name, pins, rows, true))
}

/// The table of a stage's bit of the sum.
fn sum_table(alloc: Global, width: u32, stage: u32) -> Result<Table, AllocError>
    requires narrow { width ≤ 32 }
    requires within { stage < width }
    ensures { IfOk result (λ t. t ≡ demo_table (demo_name (codes "s") stage) (sum_form width stage)) }
{
    let name = Name::numbered(alloc, b's', u64::from(stage))?;
    if stage == 0 {
        table_of(alloc, name, &[0, width], &XOR2)
    } else {
        let carry = carry_signal(width, stage - 1);
        table_of(alloc, name, &[stage, width + stage, carry], &XOR3)
    }
}

/// The table of a stage's carry.
fn carry_table(alloc: Global, width: u32, stage: u32) -> Result<Table, AllocError>
    requires narrow { width ≤ 32 }
    requires within { stage < width }
    ensures { IfOk result (λ t. t ≡ demo_table (demo_name (codes "c") (stage + 1)) (carry_form width stage)) }
{
    let name = Name::numbered(alloc, b'c', u64::from(stage + 1))?;
    if stage == 0 {
        table_of(alloc, name, &[0, width], &AND2)
    } else {
        let carry = carry_signal(width, stage - 1);
        table_of(alloc, name, &[stage, width + stage, carry], &MAJ)
    }
}

/// Adds the tables of a stage at the end.
pub fn push_stage(
    alloc: Global,
    tables: &mut TableList,
    width: u32,
    stage: u32,
) -> Result<(), AllocError>
    requires narrow { width ≤ 32 }
    requires within { stage < width }
    ensures { OnOk result (tables.new ≡ tables.old ++ stage_tables width stage) }
{
    tables.push(sum_table(alloc, width, stage)?)?;
    tables.push(carry_table(alloc, width, stage)?)
}
