//! That two nets can be compared, from the type that holds them.
ghost use Rattle.quality_semantics.specs.Joint.{AreComparable};

use net_errors::compared::Compared;

/// Shows that both nets are sound, and have equally many inputs and equally many outputs.
pub fn see_comparable(nets: &Compared)
    ensures { AreComparable nets.now.exact nets.now.approx }
{
    nets.exact().see_sound();
    nets.approx().see_sound();
}
