//! Which rules apply in a net that is not edited. The tests take no memory, and pass over all pins for each
//! table.
ghost use Rattle.std.specs.Prelude.{◌≡◌, ◌<◌, ◌+◌, ◌↔◌, true, IsTrue, length, All};
ghost use Rattle.semantics.specs.Net.{input_count, table_count, signal_count};
ghost use Rattle.chain_semantics.specs.TidyRules.{has, is_read, is_constant_signal, constant_pin};
ghost use Rattle.net_tidy.specs.Rule.{rule_at};

use crate::rule::Rule;
use crate::rules::{has, rule_by};
use net_core::items::Signal;
use net_core::net::Net;
use net_core::table::Table;

/// Whether a signal is an output.
fn is_output(net: &Net, s: Signal) -> bool
    ensures { result ≡ has net.now.outputs s }
{
    for i in 0..net.outputs() {
        if s == net.output(i) {
            return true;
        }
    }
    false
}

/// Whether some table reads a signal.
fn is_read(net: &Net, s: Signal) -> bool
    ensures { result ≡ is_read net.now.tables s }
{
    for t in 0..net.tables() {
        if has(net.table(t).pins().as_slice(), s) {
            return true;
        }
    }
    false
}

/// Whether a signal is a table without pins.
fn is_constant_signal(net: &Net, s: Signal) -> bool
    requires { s < signal_count net.now }
    ensures { result ≡ is_constant_signal (input_count net.now) net.now.tables s }
{
    net.inputs() <= s && net.table(s - net.inputs()).pins().is_empty()
}

/// The first pin of a table that reads a table without pins.
pub(crate) fn constant_pin(net: &Net, table: &Table) -> Option<usize>
    requires { All (λ s. s < signal_count net.now) table.now.pins }
    ensures { result ≡ constant_pin (input_count net.now) net.now.tables table.now }
{
    let pins = table.pins().as_slice();
    for q in 0..pins.len() {
        if is_constant_signal(net, pins[q]) {
            return Some(q);
        }
    }
    None
}

/// The first rule that applies at a table.
pub(crate) fn rule_at(net: &Net, t: u32) -> Option<Rule>
    requires { t < table_count net.now }
    ensures { result ≡ rule_at net.now t }
{
    let table = net.table(t);
    let s = net.inputs() + t;
    rule_by(
        constant_pin(net, table),
        table.pins().as_slice(),
        table.rows().as_slice(),
        table.plane(),
        is_output(net, s),
        is_read(net, s),
    )
}
