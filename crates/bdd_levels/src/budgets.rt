//! What may be spent on diagrams, with the reasons for the numbers.
ghost use Rattle.std.specs.Prelude.{◌<◌};

use bdd_core::diagrams::Allowed;

/// The most nodes that an order of inputs may take for the exact net's outputs when it is tried: few at
/// first, so that a bad order costs little, and more where no order fits.
pub const TRIAL_NODES: [u32; 2] = [1 << 14, 1 << 18];

/// The nodes of all diagrams together: some 120 megabytes with their table.
pub const MOST_NODES: u32 = 4_000_000;

/// The steps of one question: about half a second. Where these steps do not do, the solver is mostly quicker.
pub const QUESTION_STEPS: u64 = 2_000_000;

/// After this number of open questions, one after another, further questions are taken to be as hard.
pub const MOST_OPEN_QUESTIONS: u32 = 3;

/// The steps of a question that the solver left open: as many as the nodes allow.
pub const LAST_QUESTION_STEPS: u64 = 40_000_000;

/// Diagrams are begun anew where there are more nodes than `GROWTH` times those of the exact net and
/// `SPARE_NODES` more, since most nodes are then of nets that are no longer asked about.
pub const GROWTH: usize = 8;

/// The nodes that diagrams may always have beyond `GROWTH` times those of the exact net.
pub const SPARE_NODES: usize = 1_000_000;

/// The number of results that are remembered while orders are tried, and over an exact net of few nodes: so
/// few stay in the processor's cache.
pub(crate) const FEW_REMEMBERED: usize = 1 << 16;

/// The number of results that are remembered over an exact net of many nodes: as many as a question makes, so
/// that the next question finds again what did not change. With a sixteenth of this number, the questions of
/// a Sobel filter took twenty times as long.
const MANY_REMEMBERED: usize = 1 << 20;

/// An exact net with more nodes than this has many nodes.
const MANY_NODES: usize = 1 << 13;

/// The number of results that are remembered over an exact net of `nodes` nodes.
pub(crate) fn remembered(nodes: usize) -> usize
    ensures { 0 < result }
{
    if nodes > MANY_NODES {
        MANY_REMEMBERED
    } else {
        FEW_REMEMBERED
    }
}

/// `nodes` nodes and the steps of one question, over `levels` variables, with `remembered` results
/// remembered.
pub(crate) fn allowed(nodes: u32, levels: u32, remembered: usize) -> Allowed
    requires { 0 < remembered }
    ensures { 0 < result.remembered }
{
    Allowed {
        nodes,
        steps: QUESTION_STEPS,
        levels,
        remembered,
    }
}
