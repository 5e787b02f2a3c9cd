//! The adder of two words, table by table.
ghost use Rattle.std.specs.Prelude.{◌≡◌, ◌-◌, ◌≤◌, [], ◌∷◌, ◌++◌, map, flat_map, codes, IfOk};
ghost use Rattle.std.specs.List.{range_with_len};
ghost use Rattle.semantics.specs.Net.{IsSmall};
ghost use Rattle.job_semantics.specs.Demo.{demo_name, sum_signal, carry_signal, stage_tables, demo_net, Adds};

use crate::stage::{carry_signal, push_stage, sum_signal};
use net_core::items::{NameList, SignalList, TableList};
use net_core::name::{Name, numbered_names};
use net_core::net::Net;
use std::alloc::{AllocError, Global};

/// The names `a0`, `a1` and so on, and then `b0`, `b1` and so on.
fn input_names(alloc: Global, width: u32) -> Result<NameList, AllocError>
    ensures { IfOk result (λ names. names
        ≡ map (demo_name (codes "a")) (range_with_len 0 width)
        ++ map (demo_name (codes "b")) (range_with_len 0 width)) }
{
    let mut names = numbered_names(alloc, b'a', width)?;
    let second = numbered_names(alloc, b'b', width)?;
    names.push_copies(second.as_slice())?;
    Ok(names)
}

/// The tables of every stage.
fn adder_tables(alloc: Global, width: u32) -> Result<TableList, AllocError>
    requires { width ≤ 32 }
    ensures { IfOk result (λ tables. tables ≡ flat_map (stage_tables width) (range_with_len 0 width)) }
{
    let mut tables = TableList::new(alloc);
    for stage in 0..width {
        push_stage(alloc, &mut tables, width, stage)?;
    }
    Ok(tables)
}

/// The bits of the sum, and then the last carry.
fn adder_outputs(alloc: Global, width: u32) -> Result<SignalList, AllocError>
    requires some { 1 ≤ width }
    requires narrow { width ≤ 32 }
    ensures { IfOk result (λ outputs. outputs
        ≡ map (sum_signal width) (range_with_len 0 width) ++ carry_signal width (width - 1) ∷ []) }
{
    let mut outputs = SignalList::new(alloc);
    for stage in 0..width {
        outputs.push(sum_signal(width, stage))?;
    }
    outputs.push(carry_signal(width, width - 1))?;
    Ok(outputs)
}

/// The adder of two words of `width` bits, 1 to 32: its output number is the sum of the numbers of its two
/// input words. The call fails for want of memory alone.
pub fn demo_net(alloc: Global, width: u32) -> Result<Net, AllocError>
    requires some { 1 ≤ width }
    requires narrow { width ≤ 32 }
    ensures net { IfOk result (λ net. net ≡ demo_net width) }
    ensures adds { IfOk result (λ net. Adds width net) }
    ensures small { IfOk result (λ net. IsSmall net) }
{
    let model = Name::known(alloc, b"demo")?;
    let inputs = input_names(alloc, width)?;
    let tables = adder_tables(alloc, width)?;
    let outputs = adder_outputs(alloc, width)?;
    Net::from_sound(alloc, model, inputs, tables, outputs)
}
