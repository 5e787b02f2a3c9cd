//! The masks of a half adder, and where a constant breaks its bound: the bits past the last pattern of a
//! block are no patterns.
ghost use Rattle.std.specs.Prelude.{◌≡◌, ◌<◌, IfOk, Contains};
ghost use Rattle.semantics.specs.Net.{IsSmall, table_count};
ghost use Rattle.chain_semantics.specs.Moves.{moves_of};

use crate::metrics::ABSOLUTE;
use crate::nets::{HALF_ADDER, move_of, net};
use care_masks::fixed::FixedMasks;
use chain_semantics::moves::Move;
use lane_bits::patterns::Patterns;
use net_core::net::Net;
use net_errors::ports::same_ports;
use std::alloc::{AllocError, Global};
use std::test::Fail;

/// The half adder with a sum that reads the carry, as its opposite.
const READS_CARRY: &[u8] =
    b".model ha\n.inputs a b\n.outputs s c\n.names c s\n0 1\n.names a b c\n11 1\n.end\n";

/// `zeros` vectors of two zeros and then, if `ones`, one vector of two ones.
fn patterns(alloc: Global, zeros: u32, ones: bool) -> Result<Patterns, AllocError>
    ensures { IfOk result (λ p. p.inputs ≡ 2) }
{
    let mut patterns = Patterns::new(alloc, 2);
    for _zero in 0..zeros {
        patterns.push(&[false, false])?;
    }
    if ones {
        patterns.push(&[true, true])?;
    }
    Ok(patterns)
}

fn last_word(row: &[u64]) -> Option<u64> {
    row.last().copied()
}

/// The last word of the carry's care row, the last word of the row where the move changes the carry, and the
/// first pattern at which the move breaks the bound.
type Told = (Option<u64>, Option<u64>, Option<u64>);

fn told(masks: &mut FixedMasks, a_move: Move) -> Told
    requires carry { 1 < table_count masks.old.net }
    requires offered { Contains (moves_of masks.old.net) a_move }
{
    let care = last_word(masks.care(1));
    let differs = last_word(masks.differs(a_move));
    (care, differs, masks.breaks(a_move))
}

/// What the masks of the net within 1 of the half adder tell of the constant 0 as its carry.
fn carry_as_zero(
    alloc: Global,
    exact: &Net,
    approx: &Net,
    patterns: &Patterns,
) -> Result<Told, Fail>
    requires small { IsSmall approx.now }
    requires inputs { patterns.now.inputs ≡ 2 }
{
    let Some(a_move) = move_of(alloc, approx, Move::Const { t: 1, value: false })? else {
        return Err(Fail::new("no move of the net"));
    };
    if exact.inputs() != 2 || exact.outputs() != 2 || approx.tables() != 2 {
        return Err(Fail::new("no half adder"));
    }
    if !same_ports(exact, approx) {
        return Err(Fail::new("no approximation of the half adder"));
    }
    let mut masks = FixedMasks::new(alloc, ABSOLUTE, 1, exact, approx, patterns)?;
    Ok(told(&mut masks, a_move))
}

/// What [`carry_as_zero`] tells of the net of a text, at these patterns.
fn read_and_told(alloc: Global, text: &[u8], zeros: u32, ones: bool) -> Result<Told, Fail> {
    let exact = net(alloc, HALF_ADDER)?;
    let approx = net(alloc, text)?;
    let patterns = patterns(alloc, zeros, ones)?;
    carry_as_zero(alloc, &exact, &approx, &patterns)
}

/// The half adder with its carry turned over errs by 2 everywhere; where the sum reads the carry, by 2 at
/// zeros and by 1 at ones, since the sum turns too. The constant differs from the carry at ones alone.
#[test]
fn constant_carry(rt: HostRuntime) -> Result<(), Fail> {
    let cases: [(&[u8], u32, bool, Told); 5] = [
        (HALF_ADDER, 512, true, (Some(1), Some(1), Some(512))),
        (HALF_ADDER, 512, false, (Some(u64::MAX), Some(0), None)),
        (
            HALF_ADDER,
            511,
            true,
            (Some(u64::MAX), Some(1 << 63), Some(511)),
        ),
        (HALF_ADDER, 0, false, (None, None, None)),
        (READS_CARRY, 1, true, (Some(0b01), Some(0b10), None)),
    ];
    for (text, zeros, ones, wanted) in cases {
        assert_eq!(rt; read_and_told(rt.alloc(), text, zeros, ones)?, wanted);
    }
    Ok(())
}
