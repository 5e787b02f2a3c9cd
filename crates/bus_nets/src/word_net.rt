//! A network under construction, on buses.
ghost use Rattle.std.specs.Prelude.{cond, suc, ◌≡◌, ◌+◌, ◌*◌, ◌<◌, ◌≤◌, nat_lt, nat_le, max, count_by, map};
ghost use Rattle.std.specs.Prelude.{[], ◌∷◌, length, slice_index_or, All, IfOk, OnOk};
ghost use Rattle.std.specs.List.{range_with_len};
ghost use Rattle.semantics.specs.Error.{distance, differing};
ghost use Rattle.quality_semantics.specs.Forms.{form, xor3, maj};
ghost use Rattle.quality_semantics.specs.WordNets.{signals, appended, started, net_of, BeginsWith};
ghost use Rattle.quality_semantics.specs.WordNets.{AreSignalsOf};
ghost use Rattle.quality_semantics.specs.Buses.{add, greater, exceed, constant, times, not_zero_low};
ghost use Rattle.quality_semantics.specs.Buses.{flip_top, differ, growers, at_least};
ghost use Rattle.quality_semantics.specs.Laws.{number};
ghost use Rattle.bus_nets.specs.Numbers.{HasNumber, HasCount, HasBit, HasInputs, HasFlipped};

use crate::bus::{Bus, repeated, with_front};
use crate::forms::{GROW, GT, INV, MAJ, OR2, XOR2, XOR3, low_rows, model_name, numbered_table};
use net_parts::assemble::Assemble;
use net_parts::items::{Items, RowList, Signal, SignalList, TableList};
use net_parts::mark::Mark;
use net_parts::name::numbered_names;
use net_parts::row::rows_of;
use std::alloc::{AllocError, Global};
use std::marker::Model;

/// The most signals of a network, and of its outputs.
const MOST: usize = 1 << 30;

/// A network of `inputs` inputs, with a table for the constant 0 and one for the constant 1 in front.
#[derive(Drop)]
pub struct WordNet {
    alloc: Global,
    inputs: u32,
    tables: TableList,
}

impl Model for WordNet {
    ghost use Rattle.quality_semantics.specs.WordNets.{WordNetValue};
    ghost use Rattle.bus_nets.specs.Growing.{IsGrowing};

    ghost Value = { WordNetValue };

    ghost view = { λ a. record { inputs = a.inputs; tables = a.tables } };

    ghost invariant = { λ a. IsGrowing (record { inputs = a.inputs; tables = a.tables }) };
}

impl WordNet {
    /// The network of `inputs` inputs and the two constants.
    pub fn new(alloc: Global, inputs: u32) -> Result<WordNet, AllocError>
        ensures { IfOk result (λ w. w ≡ started inputs) }
    {
        if inputs as usize > MOST - 2 {
            return Err(AllocError);
        }
        let one_rows = rows_of(alloc, &[[]])?;
        let mut tables = Items::new(alloc);
        tables.push(numbered_table(alloc, 0, Items::new(alloc), Items::new(alloc))?)?;
        tables.push(numbered_table(alloc, 1, Items::new(alloc), one_rows)?)?;
        Ok(WordNet {
            alloc,
            inputs,
            tables,
        })
    }

    /// The net with these outputs.
    pub fn finish<N: Assemble>(self, outputs: &[Signal]) -> Result<N, AllocError>
        requires some { 0 < length outputs.now }
        requires outputs_in { AreSignalsOf self outputs.now }
        ensures { IfOk result (λ n. N.net n ≡ net_of self outputs.now) }
    {
        if outputs.len() > MOST {
            return Err(AllocError);
        }
        let model = model_name(self.alloc)?;
        let names = numbered_names(self.alloc, b'x', self.inputs)?;
        let outputs = Bus::from_slice(self.alloc, outputs)?;
        N::assemble(self.alloc, model, names, self.tables, outputs)
    }

    /// The signal of the constant 0.
    pub fn zero(&self) -> Signal
        ensures value { result ≡ self.now.inputs }
        ensures within { result < signals self.now }
    {
        self.inputs
    }

    /// The signal of a constant.
    fn constant_bit(&self, bit: bool) -> Signal
        ensures value { result ≡ cond bit (suc self.now.inputs) self.now.inputs }
        ensures within { result < signals self.now }
    {
        if bit { self.inputs + 1 } else { self.inputs }
    }

    /// Appends a table of plane 1, and returns its signal.
    fn append(&mut self, pins: SignalList, rows: RowList) -> Result<Signal, AllocError>
        requires pins_in { AreSignalsOf self.old pins }
        requires widths { All (λ marks. length marks ≡ length pins) rows }
        ensures more { signals self.old ≤ signals self.new }
        ensures within { OnOk result (signals self.old < signals self.new) }
        ensures ok { OnOk result (self.new ≡ appended self.old (form pins rows)) }
        ensures signal { IfOk result (λ s. s ≡ signals self.old) }
        ensures begins { BeginsWith self.new self.old }
    {
        let count = self.tables.len();
        let signal = self.inputs as usize + count;
        if signal >= MOST {
            return Err(AllocError);
        }
        let table = numbered_table(self.alloc, count, pins, rows)?;
        self.tables.push(table)?;
        Ok(signal as u32)
    }

    /// Appends a table of one of the forms, and returns its signal.
    pub fn append_form<const N: usize>(
        &mut self,
        pins: [Signal; N],
        rows: &[[Mark; N]],
    ) -> Result<Signal, AllocError>
        requires pins_in { AreSignalsOf self.old pins }
        requires widths { All (λ marks. length marks ≡ length pins) rows.now }
        ensures more { signals self.old ≤ signals self.new }
        ensures within { OnOk result (signals self.old < signals self.new) }
        ensures ok { OnOk result (self.new ≡ appended self.old (form pins.entry rows.now)) }
        ensures signal { IfOk result (λ s. s ≡ signals self.old) }
        ensures begins { BeginsWith self.new self.old }
    {
        let pins = Bus::from_slice(self.alloc, &pins)?;
        let rows = rows_of(self.alloc, rows)?;
        self.append(pins, rows)
    }

    /// Appends a full adder, and returns its sum and its carry.
    #[tactic(auto, using(crate::proofs::Steps::begins_after))]
    fn full_adder(
        &mut self,
        a: Signal,
        b: Signal,
        carry: Signal,
    ) -> Result<(Signal, Signal), AllocError>
        requires { AreSignalsOf self.old (a ∷ b ∷ carry ∷ []) }
        ensures more { signals self.old ≤ signals self.new }
        ensures within { IfOk result (λ r. (r.0 < signals self.new) × (r.1 < signals self.new)) }
        ensures ok { OnOk result (self.new ≡ appended (appended self.old (xor3 a b carry)) (maj a b carry)) }
        ensures sum { IfOk result (λ r. r.0 ≡ signals self.old) }
        ensures carry { IfOk result (λ r. r.1 ≡ signals (appended self.old (xor3 a b carry))) }
        ensures begins { BeginsWith self.new self.old }
    {
        let pins = [a, b, carry];
        let sum = self.append_form(pins, &XOR3)?;
        let carry = self.append_form(pins, &MAJ)?;
        Ok((sum, carry))
    }

    /// The signal of a bus at a place; past the width of the bus it is that of 0.
    fn bit(&self, bus: &Bus, place: usize) -> Signal
        requires { AreSignalsOf self.now bus.now }
        ensures value { result ≡ slice_index_or bus.now place self.now.inputs }
        ensures within { result < signals self.now }
    {
        if place < bus.len() {
            *bus.get(place)
        } else {
            self.inputs
        }
    }

    /// The bus of `width` inputs from input `from` on.
    pub fn input_bus(&self, from: u32, width: u32) -> Result<Bus, AllocError>
        requires { from + width ≤ self.now.inputs }
        ensures value { IfOk result (λ bus. bus ≡ range_with_len from width) }
        ensures within { IfOk result (λ bus. AreSignalsOf self.now bus) }
        ensures bits { IfOk result (λ bus. HasInputs self.now bus from width) }
    {
        let inputs = self.inputs;
        let mut bus = Bus::new(self.alloc);
        for place in 0..width {
            prove!(from + place < inputs);
            bus.push(from + place)?;
        }
        Ok(bus)
    }

    /// The sum of the numbers of two buses.
    #[tactic(auto, using(crate::proofs::Steps::places_more, crate::proofs::Steps::places_none, crate::proofs::Steps::begins_after))]
    pub fn add(&mut self, x: &Bus, y: &Bus) -> Result<Bus, AllocError>
        requires x_in { AreSignalsOf self.old x.now }
        requires y_in { AreSignalsOf self.old y.now }
        ensures more { signals self.old ≤ signals self.new }
        ensures within { IfOk result (λ bus. AreSignalsOf self.new bus) }
        ensures ok { OnOk result (self.new ≡ (add self.old x.now y.now).net) }
        ensures bus { IfOk result (λ bus. bus ≡ (add self.old x.now y.now).bus) }
        ensures number { IfOk result (λ bus. HasNumber self.new bus (λ v. number v x.now + number v y.now)) }
        ensures begins { BeginsWith self.new self.old }
    {
        let mut sums = Bus::new(self.alloc);
        let mut carry = self.inputs;
        for place in 0..x.len().max(y.len()) {
            let (a, b) = (self.bit(x, place), self.bit(y, place));
            let (sum, next) = self.full_adder(a, b, carry)?;
            sums.push(sum)?;
            carry = next;
        }
        sums.push(carry)?;
        Ok(sums)
    }

    /// The number k as a bus, up to its highest bit that is 1. No table is appended.
    pub fn constant(&self, k: u128) -> Result<Bus, AllocError>
        ensures value { IfOk result (λ bus. bus ≡ constant self.now k) }
        ensures within { IfOk result (λ bus. AreSignalsOf self.now bus) }
        ensures number { IfOk result (λ bus. HasNumber self.now bus (λ v. k)) }
    {
        let mut bus = Bus::new(self.alloc);
        let mut rest = k;
        while rest != 0 {
            bus.push(self.constant_bit(rest % 2 == 1))?;
            rest /= 2;
        }
        Ok(bus)
    }

    /// k times the number of x: twice the product of x and k / 2, plus x where k is odd.
    #[tactic(auto, using(crate::proofs::Times::times_none, crate::proofs::Times::times_one, crate::proofs::Times::times_even, crate::proofs::Times::times_odd, crate::proofs::Steps::begins_after))]
    pub fn times(&mut self, x: &Bus, k: u128) -> Result<Bus, AllocError>
        requires { AreSignalsOf self.old x.now }
        ensures more { signals self.old ≤ signals self.new }
        ensures within { IfOk result (λ bus. AreSignalsOf self.new bus) }
        ensures ok { OnOk result (self.new ≡ (times self.old x.now k).net) }
        ensures bus { IfOk result (λ bus. bus ≡ (times self.old x.now k).bus) }
        ensures number { IfOk result (λ bus. HasNumber self.new bus (λ v. k * number v x.now)) }
        ensures begins { BeginsWith self.new self.old }
    {
        if k == 0 {
            return Ok(Bus::new(self.alloc));
        }
        if k == 1 {
            return x.copy();
        }
        let half = self.times(x, k / 2)?;
        let double = with_front(self.alloc, self.inputs, half.as_slice())?;
        if k % 2 == 1 {
            self.add(&double, x)
        } else {
            Ok(double)
        }
    }

    /// Whether the number of x is greater than the number of y.
    #[tactic(auto, using(crate::proofs::Steps::places_more, crate::proofs::Steps::places_none, crate::proofs::Steps::begins_after))]
    pub fn greater(&mut self, x: &Bus, y: &Bus) -> Result<Signal, AllocError>
        requires x_in { AreSignalsOf self.old x.now }
        requires y_in { AreSignalsOf self.old y.now }
        ensures more { signals self.old ≤ signals self.new }
        ensures within { IfOk result (λ s. s < signals self.new) }
        ensures ok { OnOk result (self.new ≡ (greater self.old x.now y.now).net) }
        ensures signal { IfOk result (λ s. s ≡ (greater self.old x.now y.now).signal) }
        ensures value { IfOk result (λ s. HasBit self.new s (λ v. nat_lt (number v y.now) (number v x.now))) }
        ensures begins { BeginsWith self.new self.old }
    {
        let mut above = self.inputs;
        for place in 0..x.len().max(y.len()) {
            let pins = [self.bit(x, place), self.bit(y, place), above];
            above = self.append_form(pins, &GT)?;
        }
        Ok(above)
    }

    /// Whether the numbers of x and y are further apart than the number of z.
    #[tactic(auto, using(crate::proofs::Steps::begins_after))]
    pub fn exceed(&mut self, x: &Bus, y: &Bus, z: &Bus) -> Result<Signal, AllocError>
        requires x_in { AreSignalsOf self.old x.now }
        requires y_in { AreSignalsOf self.old y.now }
        requires z_in { AreSignalsOf self.old z.now }
        ensures more { signals self.old ≤ signals self.new }
        ensures within { IfOk result (λ s. s < signals self.new) }
        ensures ok { OnOk result (self.new ≡ (exceed self.old x.now y.now z.now).net) }
        ensures signal { IfOk result (λ s. s ≡ (exceed self.old x.now y.now z.now).signal) }
        ensures value { IfOk result
            (λ s. HasBit self.new s
            (λ v. nat_lt (number v z.now) (distance (number v x.now) (number v y.now)))) }
        ensures begins { BeginsWith self.new self.old }
    {
        let upper = self.add(y, z)?;
        let over = self.greater(x, &upper)?;
        let upper = self.add(x, z)?;
        let under = self.greater(y, &upper)?;
        self.append_form([over, under], &OR2)
    }

    /// The number of x, or 1 where that number is 0.
    pub fn not_zero_low(&mut self, x: &Bus) -> Result<Bus, AllocError>
        requires some { 0 < length x.now }
        requires x_in { AreSignalsOf self.old x.now }
        ensures more { signals self.old ≤ signals self.new }
        ensures within { IfOk result (λ bus. AreSignalsOf self.new bus) }
        ensures ok { OnOk result (self.new ≡ (not_zero_low self.old x.now).net) }
        ensures bus { IfOk result (λ bus. bus ≡ (not_zero_low self.old x.now).bus) }
        ensures number { IfOk result (λ bus. HasNumber self.new bus (λ v. max 1 (number v x.now))) }
        ensures begins { BeginsWith self.new self.old }
    {
        let pins = x.copy()?;
        let rows = low_rows(self.alloc, x.len())?;
        let low = self.append(pins, rows)?;
        with_front(self.alloc, low, &x.as_slice()[1..])
    }

    /// The word x with its last bit, the sign, turned over. Its number is that of x in two's complement plus
    /// half of the range.
    pub fn flip_top(&mut self, x: &Bus) -> Result<Bus, AllocError>
        requires some { 0 < length x.now }
        requires x_in { AreSignalsOf self.old x.now }
        ensures more { signals self.old ≤ signals self.new }
        ensures within { IfOk result (λ bus. AreSignalsOf self.new bus) }
        ensures ok { OnOk result (self.new ≡ (flip_top self.old x.now).net) }
        ensures bus { IfOk result (λ bus. bus ≡ (flip_top self.old x.now).bus) }
        ensures number { IfOk result (λ bus. HasFlipped self.new bus x.now) }
        ensures begins { BeginsWith self.new self.old }
    {
        let top = x.len() - 1;
        let sign = self.append_form([self.bit(x, top)], &INV)?;
        x.copy_with(top, sign)
    }

    /// For each place, whether the bits of x and y differ.
    #[tactic(auto, using(crate::proofs::Steps::places_more, crate::proofs::Steps::places_none, crate::proofs::Steps::begins_after))]
    pub fn differ(&mut self, x: &Bus, y: &Bus) -> Result<Bus, AllocError>
        requires x_in { AreSignalsOf self.old x.now }
        requires y_in { AreSignalsOf self.old y.now }
        ensures more { signals self.old ≤ signals self.new }
        ensures within { IfOk result (λ bus. AreSignalsOf self.new bus) }
        ensures ok { OnOk result (self.new ≡ (differ self.old x.now y.now).net) }
        ensures bus { IfOk result (λ bus. bus ≡ (differ self.old x.now y.now).bus) }
        ensures count { IfOk result
            (λ bus. length x.now ≡ length y.now
            → HasCount self.new bus (λ v. differing (map v x.now) (map v y.now))) }
        ensures begins { BeginsWith self.new self.old }
    {
        let mut bits = Bus::new(self.alloc);
        for place in 0..x.len().max(y.len()) {
            let (a, b) = (self.bit(x, place), self.bit(y, place));
            let bit = self.append_form([a, b], &XOR2)?;
            bits.push(bit)?;
        }
        Ok(bits)
    }

    /// The next row of a counter, which counts `bit` too.
    #[tactic(auto, using(crate::proofs::Steps::begins_after))]
    fn next_row(&mut self, bit: Signal, row: &Bus) -> Result<Bus, AllocError>
        requires bit_in { bit < signals self.old }
        requires row_in { AreSignalsOf self.old row.now }
        ensures more { signals self.old ≤ signals self.new }
        ensures within { IfOk result (λ bus. AreSignalsOf self.new bus) }
        ensures ok { OnOk result (self.new ≡ (growers self.old bit (suc self.old.inputs) row.now).net) }
        ensures bus { IfOk result (λ bus. bus ≡ (growers self.old bit (suc self.old.inputs) row.now).bus) }
        ensures begins { BeginsWith self.new self.old }
    {
        let mut next = Bus::new(self.alloc);
        let mut before = self.inputs + 1;
        for at in row.as_slice() {
            let place = *at;
            let signal = self.append_form([place, bit, before], &GROW)?;
            next.push(signal)?;
            before = place;
        }
        Ok(next)
    }

    /// Whether at least k bits of d are 1.
    pub fn at_least(&mut self, d: &Bus, k: u32) -> Result<Signal, AllocError>
        requires { AreSignalsOf self.old d.now }
        ensures more { signals self.old ≤ signals self.new }
        ensures within { IfOk result (λ s. s < signals self.new) }
        ensures ok { OnOk result (self.new ≡ (at_least self.old d.now k).net) }
        ensures signal { IfOk result (λ s. s ≡ (at_least self.old d.now k).signal) }
        ensures value { IfOk result (λ s. HasBit self.new s (λ v. nat_le k (count_by v d.now))) }
        ensures begins { BeginsWith self.new self.old }
    {
        let mut row = repeated(self.alloc, self.inputs, k as usize)?;
        for bit in d.as_slice() {
            row = self.next_row(*bit, &row)?;
        }
        if k == 0 {
            Ok(self.inputs + 1)
        } else {
            prove!(row.len() == k as usize);
            Ok(*row.get(k as usize - 1))
        }
    }
}
