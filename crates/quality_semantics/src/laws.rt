//! The laws about the networks: each function's contract is a law.
ghost use Rattle.quality_semantics.specs.Laws.{BusLaw, FitsLaw, RoundingLaw, MultiplierLaw, QualityLaw};
ghost use Rattle.quality_semantics.specs.Laws.{WordQualityLaw, JointLaw, BinaryLaw};
ghost use Rattle.quality_semantics.specs.Sizes.{RoomLaw};

/// What the buses' numbers are.
pub fn buses()
    ensures { BusLaw }
{}

/// Which assignments fit a network, and the networks with which it began.
pub fn fitting()
    ensures { FitsLaw }
{}

/// The bits of a number.
pub fn binary_numbers()
    ensures { BinaryLaw }
{}

/// Quotients rounded up.
pub fn rounding()
    ensures { RoundingLaw }
{}

/// What number the bus of the array multiplier has.
pub fn multiplier()
    ensures { MultiplierLaw }
{}

/// What the tables of one word say.
pub fn word_quality()
    ensures { WordQualityLaw }
{}

/// What the quality networks say.
pub fn quality()
    ensures { QualityLaw }
{}

/// What joint nets say.
pub fn joint_nets()
    ensures { JointLaw }
{}

/// How large quality networks and joint nets are.
pub fn room()
    ensures { RoomLaw }
{}
