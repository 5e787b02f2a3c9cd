//! The joint net: two nets over the same inputs, and a quality network over their outputs. Source: SALSA's
//! quality function circuit, which the outputs of the exact and of the approximate circuit feed.
ghost use Rattle.std.specs.Prelude.{◌≡◌, ◌↔◌, ℕ, ◌+◌, ◌<◌, ◌≤◌, ◌^◌, map, length, codes, IfOk, IsTrue};
ghost use Rattle.std.specs.List.{range_with_len};
ghost use Rattle.semantics.specs.Net.{input_count, table_count, signal_count, row_count, HasSamePorts};
ghost use Rattle.semantics.specs.Net.{IsSmall, IsSound, NetValue};
ghost use Rattle.quality_semantics.specs.Quality.{quality_net};
ghost use Rattle.quality_semantics.specs.Joint.{numbered_name, both_outputs, quality_signal, joint_net};
ghost use Rattle.miter.specs.Copies.{all_copies, joined, IsJoinable, TellsError};

use crate::copies::{first_signals, model_name, push_copies, push_outputs};
use crate::quality::quality;
use net_core::items::{NameList, Signal, SignalList, TableList};
use net_core::name::{Name, numbered_names};
use net_core::net::Net;
use semantics::limits::MOST_OUTPUTS;
use semantics::metric::Metric;
use std::alloc::{AllocError, Global};

/// The bound below which the number of signals and rows of a joint net stays.
const ROOM: u32 = 1 << 31;

/// The signals that the quality network reads: the outputs of the exact net, and then those of the
/// approximate one.
fn signals_read(
    alloc: Global,
    inputs: &[Signal],
    exact: &Net,
    approx: &Net,
) -> Result<SignalList, AllocError>
    requires { inputs.now ≡ range_with_len 0 (input_count exact.now) }
    ensures { IfOk result (λ read. read ≡ both_outputs exact.now approx.now) }
{
    let mut read = SignalList::new(alloc);
    push_outputs(&mut read, inputs, exact.inputs(), exact)?;
    push_outputs(&mut read, inputs, exact.signals(), approx)?;
    Ok(read)
}

/// The tables of the joint net.
fn joint_tables(
    alloc: Global,
    inputs: &[Signal],
    read: &[Signal],
    exact: &Net,
    approx: &Net,
    quality: &Net,
) -> Result<TableList, AllocError>
    requires inputs { inputs.now ≡ range_with_len 0 (input_count exact.now) }
    requires read { read.now ≡ both_outputs exact.now approx.now }
    requires outputs { length exact.now.outputs ≡ length approx.now.outputs }
    requires room { signal_count exact.now + table_count approx.now < 2 ^ 31 }
    ensures { IfOk result (λ tables. tables ≡ all_copies exact.now approx.now quality.now.tables) }
{
    let first = exact.signals();
    let last = first + approx.tables();
    let mut tables = TableList::new(alloc);
    push_copies(alloc, &mut tables, b'e', inputs, exact.inputs(), exact)?;
    push_copies(alloc, &mut tables, b'a', inputs, first, approx)?;
    push_copies(alloc, &mut tables, b'q', read, last, quality)?;
    Ok(tables)
}

/// The output of the joint net.
fn joint_outputs(
    alloc: Global,
    read: &[Signal],
    exact: &Net,
    approx: &Net,
    quality: &Net,
) -> Result<SignalList, AllocError>
    requires read { read.now ≡ both_outputs exact.now approx.now }
    requires outputs { length exact.now.outputs ≡ length approx.now.outputs }
    requires room { signal_count exact.now + table_count approx.now < 2 ^ 31 }
    ensures { IfOk result (λ outputs. outputs
        ≡ map (quality_signal exact.now approx.now) quality.now.outputs) }
{
    let last = exact.signals() + approx.tables();
    let mut outputs = SignalList::new(alloc);
    push_outputs(&mut outputs, read, last, quality)?;
    Ok(outputs)
}

/// Whether the joint net has fewer signals than `ROOM`, as that of two nets that are read has.
fn has_few_signals(exact: &Net, approx: &Net, quality: &Net) -> bool
    ensures value { IsTrue result
        ↔ (signal_count exact.now + table_count approx.now + table_count quality.now < 2 ^ 31) }
    ensures small { (metric : Metric) (k : ℕ) → IsSmall exact.now → IsSmall approx.now
        → quality.now ≡ quality_net metric (length exact.now.outputs) k → IsTrue result }
    ensures exact_sound { IsSound exact.now }
    ensures approximate_sound { IsSound approx.now }
{
    let signals = u64::from(exact.signals())
        + u64::from(approx.tables())
        + u64::from(quality.tables());
    signals < u64::from(ROOM)
}

/// The tables and the outputs of the joint net, where its inputs have the signals `inputs` and the quality
/// network reads the signals `read`.
fn parts_over(
    alloc: Global,
    inputs: &[Signal],
    read: &[Signal],
    exact: &Net,
    approx: &Net,
    quality: &Net,
) -> Result<(TableList, SignalList), AllocError>
    requires inputs { inputs.now ≡ range_with_len 0 (input_count exact.now) }
    requires read { read.now ≡ both_outputs exact.now approx.now }
    requires outputs { length exact.now.outputs ≡ length approx.now.outputs }
    requires room { signal_count exact.now + table_count approx.now < 2 ^ 31 }
    ensures tables { IfOk result (λ p. p.0 ≡ all_copies exact.now approx.now quality.now.tables) }
    ensures outputs { IfOk result (λ p. p.1 ≡ map (quality_signal exact.now approx.now) quality.now.outputs) }
{
    let tables = joint_tables(alloc, inputs, read, exact, approx, quality)?;
    let outputs = joint_outputs(alloc, read, exact, approx, quality)?;
    Ok((tables, outputs))
}

/// The tables and the outputs of the joint net of two nets and a quality network.
fn wired_parts(
    alloc: Global,
    exact: &Net,
    approx: &Net,
    quality: &Net,
) -> Result<(TableList, SignalList), AllocError>
    requires outputs { length exact.now.outputs ≡ length approx.now.outputs }
    requires room { signal_count exact.now + table_count approx.now < 2 ^ 31 }
    ensures tables { IfOk result (λ p. p.0 ≡ all_copies exact.now approx.now quality.now.tables) }
    ensures outputs { IfOk result (λ p. p.1 ≡ map (quality_signal exact.now approx.now) quality.now.outputs) }
{
    let own = first_signals(alloc, exact.inputs())?;
    let read = signals_read(alloc, &own, exact, approx)?;
    parts_over(alloc, &own, read.as_slice(), exact, approx, quality)
}

/// What a net is made of.
#[derive(Drop)]
struct Parts {
    model: Name,
    inputs: NameList,
    tables: TableList,
    outputs: SignalList,
}

/// The parts of the joint net of two nets and a quality network.
fn joint_parts(alloc: Global, exact: &Net, approx: &Net, quality: &Net) -> Result<Parts, AllocError>
    requires outputs { length exact.now.outputs ≡ length approx.now.outputs }
    requires room { signal_count exact.now + table_count approx.now < 2 ^ 31 }
    ensures model { IfOk result (λ p. p.model ≡ codes "joint") }
    ensures inputs { IfOk result
        (λ p. p.inputs ≡ map (numbered_name 120) (range_with_len 0 (input_count exact.now))) }
    ensures tables { IfOk result (λ p. p.tables ≡ all_copies exact.now approx.now quality.now.tables) }
    ensures outputs { IfOk result
        (λ p. p.outputs ≡ map (quality_signal exact.now approx.now) quality.now.outputs) }
{
    let (tables, outputs) = wired_parts(alloc, exact, approx, quality)?;
    let model = model_name(alloc)?;
    let inputs = numbered_names(alloc, b'x', exact.inputs())?;
    Ok(Parts {
        model,
        inputs,
        tables,
        outputs,
    })
}

/// The joint net of two nets and a quality network.
fn join(alloc: Global, exact: &Net, approx: &Net, quality: &Net) -> Result<Net, AllocError>
    requires { IsJoinable exact.now approx.now quality.now }
    ensures { IfOk result (λ n. n ≡ joined exact.now approx.now quality.now) }
{
    let Parts {
        model,
        inputs,
        tables,
        outputs,
    } = joint_parts(alloc, exact, approx, quality)?;
    Net::from_sound(alloc, model, inputs, tables, outputs)
}

/// Whether the signals and the rows together are fewer than `ROOM`, as those of the joint net of two nets
/// that are read are.
fn has_room(net: &Net) -> bool
    ensures value { IsTrue result ↔ (signal_count net.now + row_count net.now < 2 ^ 31) }
    ensures small { (exact approx : NetValue) (metric : Metric) (k : ℕ) → IsSmall exact → IsSmall approx
        → net.now ≡ joint_net exact approx metric k → IsTrue result }
{
    let mut left = ROOM - net.signals();
    for t in 0..net.tables() {
        let rows = net.table(t).rows().len();
        if rows >= left as usize {
            return false;
        }
        left -= rows as u32;
    }
    true
}

/// The net, if it has room.
fn with_room(net: Net) -> Result<Net, AllocError>
    ensures net { IfOk result (λ n. n ≡ net) }
    ensures room { IfOk result (λ n. signal_count n + row_count n < 2 ^ 31) }
{
    if has_room(&net) {
        Ok(net)
    } else {
        Err(AllocError)
    }
}

/// The joint net of two nets and a quality network for them, if its signals are few.
fn join_few(alloc: Global, exact: &Net, approx: &Net, quality: &Net) -> Result<Net, AllocError>
    requires ports { HasSamePorts exact.now approx.now }
    requires quality { (metric : Metric) × (k : ℕ)
        × (quality.now ≡ quality_net metric (length exact.now.outputs) k) }
    ensures net { IfOk result (λ n. n ≡ joined exact.now approx.now quality.now) }
    ensures exact_sound { IsSound exact.now }
    ensures approximate_sound { IsSound approx.now }
{
    if has_few_signals(exact, approx, quality) {
        join(alloc, exact, approx, quality)
    } else {
        Err(AllocError)
    }
}

/// The joint net of two nets and a quality network for them, if it has room.
fn join_with_room(
    alloc: Global,
    exact: &Net,
    approx: &Net,
    quality: &Net,
) -> Result<Net, AllocError>
    requires ports { HasSamePorts exact.now approx.now }
    requires quality { (metric : Metric) × (k : ℕ)
        × (quality.now ≡ quality_net metric (length exact.now.outputs) k) }
    ensures net { IfOk result (λ n. n ≡ joined exact.now approx.now quality.now) }
    ensures room { IfOk result (λ n. signal_count n + row_count n < 2 ^ 31) }
    ensures exact_sound { IsSound exact.now }
    ensures approximate_sound { IsSound approx.now }
{
    with_room(join_few(alloc, exact, approx, quality)?)
}

/// The joint net, whose output says whether the error of the approximate net's outputs against those of the
/// exact net exceeds `k`. The call also counts it as want of memory where signals and rows would be 2^31 or
/// more, which they never are for two nets that are read.
pub fn joint(
    alloc: Global,
    exact: &Net,
    approx: &Net,
    metric: Metric,
    k: u128,
) -> Result<Net, AllocError>
    requires ports { HasSamePorts exact.now approx.now }
    requires few { length exact.now.outputs ≤ MOST_OUTPUTS }
    ensures net { IfOk result (λ n. n ≡ joint_net exact.now approx.now metric k) }
    ensures output { IfOk result (λ n. TellsError metric exact.now approx.now k n) }
    ensures room { IfOk result (λ n. signal_count n + row_count n < 2 ^ 31) }
{
    let quality = quality(alloc, metric, exact.outputs(), k)?;
    join_with_room(alloc, exact, approx, &quality)
}
