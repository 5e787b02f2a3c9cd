//! Orders of a net's inputs, from its structure and its names alone. Only the number of nodes depends on
//! them. Source: Malik's and Fujita's walks from the outputs; words interleaved by bits, as for adders and
//! comparators.
use net_core::items::Signal;
use net_core::net::Net;
use std::alloc::{AllocError, Global};

/// How inputs are put in order.
#[derive(Clone, Copy)]
pub(crate) enum Heuristic {
    /// In the order in which a walk from the last output meets the inputs; of a table's pins the one nearest
    /// to the inputs comes first.
    LastShallowFirst,
    /// The words' highest bits first, by the numbers at the ends of the names.
    HighestBitFirst,
    /// In the order in which a walk from the last output meets the inputs.
    LastOutputFirst,
    /// In the reverse of the order in which a walk from the first output meets the inputs.
    FirstOutputLast,
    /// In the order in which a walk from the first output meets the inputs.
    FirstOutputFirst,
    /// The words' lowest bits first.
    LowestBitFirst,
}

/// All heuristics, the best first.
pub(crate) const HEURISTICS: [Heuristic; 6] = [
    Heuristic::LastShallowFirst,
    Heuristic::HighestBitFirst,
    Heuristic::LastOutputFirst,
    Heuristic::FirstOutputLast,
    Heuristic::FirstOutputFirst,
    Heuristic::LowestBitFirst,
];

/// One more than the greatest depth of these signals.
fn depth_over(depths: &[u32], pins: &[Signal]) -> u32 {
    let mut most = 0;
    for pin in pins {
        let at = *pin as usize;
        if at < depths.len() && depths[at] > most {
            most = depths[at];
        }
    }
    most.saturating_add(1)
}

/// Sets the depth of each table.
fn set_depths(depths: &mut [u32], net: &Net) {
    let inputs = net.inputs() as usize;
    for t in net.order() {
        let at = inputs.saturating_add(*t as usize);
        if *t < net.tables() && at < depths.len() {
            let depth = depth_over(depths, net.table(*t).pins().as_slice());
            depths[at] = depth;
        }
    }
}

/// How far each signal is from the inputs.
fn depths(alloc: Global, net: &Net) -> Result<Vec<u32>, AllocError> {
    let mut depths = vec![in alloc; 0; net.signals() as usize]?;
    set_depths(&mut depths, net);
    Ok(depths)
}

/// The places of these keys in the order of the keys, each place behind its key in one number.
fn sorted(alloc: Global, keys: &[u32]) -> Result<Vec<u64>, AllocError> {
    let mut both = Vec::new(alloc);
    for (place, key) in keys.iter().enumerate() {
        both.push((u64::from(*key) << 32) | place as u64)?;
    }
    both.sort_unstable();
    Ok(both)
}

/// The depths of the pins, or 0 for each pin where the depths do not matter.
fn pin_keys(
    alloc: Global,
    depths: &[u32],
    pins: &[Signal],
    by_depth: bool,
) -> Result<Vec<u32>, AllocError> {
    let mut keys = Vec::new(alloc);
    for pin in pins {
        let at = *pin as usize;
        keys.push(if by_depth && at < depths.len() {
            depths[at]
        } else {
            0
        })?;
    }
    Ok(keys)
}

/// The places of pins, each behind its key in one number: the pin of the least depth comes first, or the
/// first pin where the depths do not matter.
fn pins_in_order(
    alloc: Global,
    depths: &[u32],
    pins: &[Signal],
    by_depth: bool,
) -> Result<Vec<u64>, AllocError> {
    let keys = pin_keys(alloc, depths, pins, by_depth)?;
    sorted(alloc, &keys)
}

/// Puts pins on a stack, by these pairs of a key and a place, from the last pair to the first.
fn push_from_last(
    left: &mut Vec<Signal>,
    pairs: &[u64],
    pins: &[Signal],
) -> Result<(), AllocError> {
    for pair in pairs.iter().rev() {
        let place = (*pair & 0xffff_ffff) as usize;
        if place < pins.len() {
            left.push(pins[place])?;
        }
    }
    Ok(())
}

/// Puts pins on a stack, so that the pin of the least depth is taken first, or the first pin where the depths
/// do not matter.
fn push_pins(
    alloc: Global,
    left: &mut Vec<Signal>,
    depths: &[u32],
    pins: &[Signal],
    by_depth: bool,
) -> Result<(), AllocError> {
    let pairs = pins_in_order(alloc, depths, pins, by_depth)?;
    push_from_last(left, &pairs, pins)
}

/// Marks a signal as seen, and returns whether it was not seen before.
fn is_new(seen: &mut [bool], signal: Signal) -> bool {
    let at = signal as usize;
    if at >= seen.len() || seen[at] {
        return false;
    }
    seen[at] = true;
    true
}

/// What a walk does at a signal that it sees for the first time: it meets an input, or puts the pins of a
/// table on the stack.
fn visit(
    alloc: Global,
    net: &Net,
    depths: &[u32],
    by_depth: bool,
    signal: Signal,
    left: &mut Vec<Signal>,
    met: &mut Vec<Signal>,
) -> Result<(), AllocError> {
    if signal < net.inputs() {
        met.push(signal)?;
    } else if signal - net.inputs() < net.tables() {
        let pins = net.table(signal - net.inputs()).pins();
        push_pins(alloc, left, depths, pins.as_slice(), by_depth)?;
    }
    Ok(())
}

/// The inputs that a walk from the signals on a stack meets, one after another.
fn met_inputs(
    alloc: Global,
    net: &Net,
    depths: &[u32],
    by_depth: bool,
    left: &mut Vec<Signal>,
    seen: &mut [bool],
) -> Result<Vec<Signal>, AllocError> {
    let mut met = Vec::new(alloc);
    for _ in 0..u64::MAX {
        let Some(signal) = left.pop() else {
            break;
        };
        if is_new(seen, signal) {
            visit(alloc, net, depths, by_depth, signal, left, &mut met)?;
        }
    }
    Ok(met)
}

/// The inputs in the order in which a walk from these outputs meets them; the walk begins with the last
/// output.
fn walk(
    alloc: Global,
    net: &Net,
    mut outputs: Vec<Signal>,
    by_depth: bool,
) -> Result<Vec<Signal>, AllocError> {
    let depths = depths(alloc, net)?;
    let mut seen = vec![in alloc; false; net.signals() as usize]?;
    met_inputs(alloc, net, &depths, by_depth, &mut outputs, &mut seen)
}

/// The inputs in the order in which a walk from the last output meets them.
fn from_last(alloc: Global, net: &Net, by_depth: bool) -> Result<Vec<Signal>, AllocError> {
    let outputs = net.output_signals().to_vec(alloc)?;
    walk(alloc, net, outputs, by_depth)
}

/// The inputs in the order in which a walk from the first output meets them.
fn from_first(alloc: Global, net: &Net) -> Result<Vec<Signal>, AllocError> {
    let mut outputs = net.output_signals().to_vec(alloc)?;
    outputs.reverse();
    walk(alloc, net, outputs, false)
}

/// The inputs in the reverse of the order in which a walk from the first output meets them.
fn from_first_turned(alloc: Global, net: &Net) -> Result<Vec<Signal>, AllocError> {
    let mut met = from_first(alloc, net)?;
    met.reverse();
    Ok(met)
}

/// The number at the end of a name, or the one before a closing bracket at its end.
fn name_number(name: &[u8]) -> u32 {
    let mut number = 0u32;
    let mut unit = 1u32;
    for byte in name.iter().rev() {
        if !byte.is_ascii_digit() {
            if *byte == b']' && unit == 1 {
                continue;
            }
            break;
        }
        number = number.saturating_add(unit.saturating_mul(u32::from(*byte - b'0')));
        unit = unit.saturating_mul(10);
    }
    number
}

/// The key of each input: the number at the end of its name or, with the highest first, the greatest number
/// less that number.
fn name_keys(alloc: Global, net: &Net, highest_first: bool) -> Result<Vec<u32>, AllocError> {
    let mut keys = Vec::new(alloc);
    for name in net.input_names() {
        let number = name_number(name.bytes());
        keys.push(if highest_first {
            u32::MAX - number
        } else {
            number
        })?;
    }
    Ok(keys)
}

/// The places in these pairs of a key and a place.
fn places(alloc: Global, pairs: &[u64]) -> Result<Vec<Signal>, AllocError> {
    let mut places = Vec::new(alloc);
    for pair in pairs {
        places.push((*pair & 0xffff_ffff) as u32)?;
    }
    Ok(places)
}

/// The inputs by the numbers at the ends of their names.
fn by_names(alloc: Global, net: &Net, highest_first: bool) -> Result<Vec<Signal>, AllocError> {
    let keys = name_keys(alloc, net, highest_first)?;
    let pairs = sorted(alloc, &keys)?;
    places(alloc, &pairs)
}

/// Gives the inputs that were met their ranks in this order, and returns the next rank.
fn rank_met(ranks: &mut [u32], inputs: u32, met: &[Signal]) -> u32 {
    let mut next = 0;
    for input in met {
        let at = *input as usize;
        if at < ranks.len() && ranks[at] == u32::MAX && next < inputs {
            ranks[at] = next;
            next += 1;
        }
    }
    next
}

/// Gives ranks from `first` on to the inputs that have none.
fn rank_others(ranks: &mut [u32], inputs: u32, first: u32) {
    let mut next = first;
    for rank in ranks.iter_mut() {
        if *rank == u32::MAX && next < inputs {
            *rank = next;
            next += 1;
        }
    }
}

/// The rank of each input: first the inputs that were met, in this order, and then the others.
fn ranks(alloc: Global, inputs: u32, met: &[Signal]) -> Result<Vec<u32>, AllocError> {
    let mut ranks = vec![in alloc; u32::MAX; inputs as usize]?;
    let next = rank_met(&mut ranks, inputs, met);
    rank_others(&mut ranks, inputs, next);
    Ok(ranks)
}

/// The inputs in the order of a heuristic, of which the first is split on first; some inputs may be missing.
fn in_order(alloc: Global, net: &Net, heuristic: Heuristic) -> Result<Vec<Signal>, AllocError> {
    match heuristic {
        Heuristic::LastShallowFirst => from_last(alloc, net, true),
        Heuristic::HighestBitFirst => by_names(alloc, net, true),
        Heuristic::LastOutputFirst => from_last(alloc, net, false),
        Heuristic::FirstOutputLast => from_first_turned(alloc, net),
        Heuristic::FirstOutputFirst => from_first(alloc, net),
        Heuristic::LowestBitFirst => by_names(alloc, net, false),
    }
}

/// The variable of each input; the input with the least variable is split on first.
pub(crate) fn input_variables(
    alloc: Global,
    net: &Net,
    heuristic: Heuristic,
) -> Result<Vec<u32>, AllocError> {
    let met = in_order(alloc, net, heuristic)?;
    ranks(alloc, net.inputs(), &met)
}
