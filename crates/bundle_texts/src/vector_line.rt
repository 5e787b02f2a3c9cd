//! Lines of input vectors, taken byte by byte. Only the line at hand is held.
ghost use Rattle.std.specs.Prelude.{◌≡◌, ◌≢◌, ◌≤◌, [], false, length, MatchOption};
ghost use Rattle.bundle_texts.specs.VectorLine.{is_next, line_after, is_whole};

use crate::bits::is_bit_digit;
use bundle_writing::bits::bit_byte;
use semantics::limits::MOST_INPUTS;
use std::marker::Model;

/// The bits of the line that has not ended, and whether a line has ended before it. Allocates nothing.
#[derive(Drop)]
pub struct VectorLine {
    inputs: u32,
    bits: [bool; MOST_INPUTS],
    filled: usize,
    has_ended: bool,
}

impl Model for VectorLine {
    ghost use Rattle.std.specs.Prelude.{◌≡◌, ◌≤◌, length, take};
    ghost use Rattle.semantics.specs.declared.limits.TheConstants.{MOST_INPUTS};
    ghost use Rattle.bundle_texts.specs.VectorLine.{LineValue};

    ghost Value = { LineValue };

    ghost view = { λ a. record {
      inputs = a.inputs;
      begun = take a.filled a.bits;
      has_ended = a.has_ended;
    } };

    ghost invariant = { λ a. (a.filled ≤ a.inputs)
        × ((a.inputs ≤ MOST_INPUTS) × (length a.bits ≡ MOST_INPUTS)) };
}

impl VectorLine {
    /// Before the first byte, for vectors of `inputs` bits.
    pub fn new(inputs: u32) -> VectorLine
        requires { inputs ≤ MOST_INPUTS }
        ensures { result ≡ record { inputs = inputs; begun = []; has_ended = false } }
    {
        VectorLine {
            inputs,
            bits: [false; MOST_INPUTS],
            filled: 0,
            has_ended: false,
        }
    }

    /// Whether the byte may come next, where the first line is to be the witness's.
    pub fn is_next(&self, witness: &[bool], byte: u8) -> bool
        requires { length witness.now ≡ self.now.inputs }
        ensures { result ≡ is_next witness.now self.now byte }
    {
        if self.filled == witness.len() {
            byte == b'\n'
        } else if self.has_ended {
            is_bit_digit(byte)
        } else {
            byte == bit_byte(witness[self.filled])
        }
    }

    /// The vector of the line, where only the line's end is missing.
    pub fn vector(&self) -> Option<&[bool]>
        ensures { MatchOption result
            (length self.now.begun ≢ self.now.inputs)
            (λ x. (x.now ≡ self.now.begun) × (length self.now.begun ≡ self.now.inputs)) }
    {
        if self.filled == self.inputs as usize {
            Some(&self.bits[..self.filled])
        } else {
            None
        }
    }

    /// Takes the next byte: the end of a line whose bits are all there, or the next bit.
    pub fn take(&mut self, byte: u8)
        ensures { self.new ≡ line_after self.old byte }
    {
        if self.filled == self.inputs as usize {
            self.filled = 0;
            self.has_ended = true;
        } else {
            self.bits[self.filled] = byte == b'1';
            self.filled += 1;
        }
    }

    /// Whether there is a last line, and it has ended.
    pub fn is_whole(&self) -> bool
        ensures { result ≡ is_whole self.now }
    {
        self.filled == 0 && self.has_ended
    }
}
