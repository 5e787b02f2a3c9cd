//! The error of an approximate net at one input vector.
ghost use Rattle.std.specs.Prelude.{◌≡◌, length, IfOk};
ghost use Rattle.semantics.specs.Net.{input_count};
ghost use Rattle.semantics.specs.Value.{outputs_of};
ghost use Rattle.semantics.specs.Error.{net_error};

use crate::compared::Compared;
use crate::error::error;
use net_core::items::Bits;
use net_core::net::Net;
use semantics::metric::Metric;
use std::alloc::{AllocError, Global};

/// The outputs at an input vector.
fn outputs(alloc: Global, net: &Net, x: &[bool]) -> Result<Bits, AllocError>
    requires { length x.now ≡ input_count net.now }
    ensures { IfOk result (λ word. word ≡ outputs_of net.now x.now) }
{
    let mut vals = vec![in alloc; false; net.signals() as usize]?;
    net.eval(x, &mut vals);
    let mut word = Bits::new(alloc);
    for i in 0..net.outputs() {
        word.push(vals[net.output(i) as usize])?;
    }
    Ok(word)
}

/// The error of the approximate net at an input vector.
pub fn error_at(
    alloc: Global,
    nets: &Compared,
    metric: Metric,
    x: &[bool],
) -> Result<u128, AllocError>
    requires { length x.now ≡ input_count nets.now.exact }
    ensures { IfOk result (λ e. e ≡ net_error metric nets.now.exact nets.now.approx x.now) }
{
    let right = outputs(alloc, nets.exact(), x)?;
    let word = outputs(alloc, nets.approx(), x)?;
    Ok(error(metric, right.as_slice(), word.as_slice()))
}
