//! Bits that look like chance, and are equal in each run. No statement depends on which they are. Source: the
//! multipliers of SplitMix64.
ghost use Rattle.std.specs.Prelude.{◌≡◌};
ghost use Rattle.bdd_core.specs.Chance.{chance};

/// The bit at a place, for a seed.
#[inline]
pub fn chance(seed: u32, at: u64) -> bool
    ensures { result ≡ chance seed at }
{
    let mixed = (u64::from(seed).wrapping_mul(0x9e37_79b9_7f4a_7c15) ^ at).wrapping_mul(
        0xbf58_476d_1ce4_e5b9,
    );
    (mixed ^ (mixed >> 29)).wrapping_mul(0x94d0_49bb_1331_11eb) >> 63 == 1
}
