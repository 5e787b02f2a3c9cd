//! Whether two nets can stand in each other's place.
ghost use Rattle.std.specs.Prelude.{◌≡◌, ◌↔◌, ◌<◌, map, length, IsTrue};
ghost use Rattle.semantics.specs.Net.{input_count, signal_count, signal_names, name_of, HasSamePorts};

use net_core::net::Net;

/// Whether the names of the inputs are the same, in the same order.
fn same_inputs(n: &Net, m: &Net) -> bool
    ensures { IsTrue result ↔ (n.now.inputs ≡ m.now.inputs) }
{
    if n.inputs() != m.inputs() {
        return false;
    }
    for i in 0..n.inputs() {
        if n.signal_name(i).bytes() != m.signal_name(i).bytes() {
            return false;
        }
    }
    true
}

/// Whether the names of the outputs are the same, in the same order.
fn same_outputs(n: &Net, m: &Net) -> bool
    ensures { IsTrue result
        ↔ (map (name_of (signal_names n.now)) n.now.outputs
        ≡ map (name_of (signal_names m.now)) m.now.outputs) }
{
    if n.outputs() != m.outputs() {
        return false;
    }
    for i in 0..n.outputs() {
        let (here, there) = (n.output(i), m.output(i));
        if n.signal_name(here).bytes() != m.signal_name(there).bytes() {
            return false;
        }
    }
    true
}

/// Whether two nets have the same input names and the same output names, each in the same order. The
/// comparison takes no memory.
pub fn same_ports(n: &Net, m: &Net) -> bool
    ensures { IsTrue result ↔ HasSamePorts n.now m.now }
{
    same_inputs(n, m) && same_outputs(n, m)
}
