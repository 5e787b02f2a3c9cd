//! Which signals depend on a table. One pass along the order of the tables finds this for all signals: a
//! table depends on what its pins depend on, and the pins are marked before it.
ghost use Rattle.std.specs.Prelude.{◌≡◌, ◌==◌, ◌↔◌, ◌||◌, ◌<◌, ℕ, false, length, slice_index_or, IsTrue};
ghost use Rattle.std.specs.Prelude.{IfOk, All};
ghost use Rattle.std.specs.List.{list_any};
ghost use Rattle.semantics.specs.Net.{input_count, table_count, signal_count};
ghost use Rattle.semantics.specs.Dependence.{DependsOn};
ghost use Rattle.net_core.specs.Built.{IsBuilt};

use crate::net::Net;
use net_parts::items::Signal;
use std::alloc::AllocError;

/// Takes all marks away.
fn clear(marks: &mut [bool])
    ensures { (s : ℕ) → slice_index_or marks.new s false ≡ false }
{
    for mark in marks.iter_mut() {
        *mark = false;
    }
}

/// Whether some pin is marked.
fn reads_marked(pins: &[Signal], marks: &[bool]) -> bool
    requires { All (λ s. s < length marks.now) pins.now }
    ensures { result ≡ list_any (λ s. slice_index_or marks.now s false) pins.now }
{
    pins.iter().any(|s| marks[*s as usize])
}

/// Whether table `i`, of these pins, is table `t` or has a marked pin.
fn is_dependent(i: u32, t: u32, pins: &[Signal], marks: &[bool]) -> bool
    requires { All (λ s. s < length marks.now) pins.now }
    ensures { result ≡ ((i == t) || list_any (λ s. slice_index_or marks.now s false) pins.now) }
{
    i == t || reads_marked(pins, marks)
}

impl Net {
    /// Sets `marks[s]` for each signal `s`: whether it is table `t` or reads table `t` through any number of
    /// tables.
    pub fn mark_dependents(&self, t: u32, marks: &mut [bool])
        requires within { t < table_count self.now }
        requires room { length marks.old ≡ signal_count self.now }
        ensures marks { (s : ℕ) → s < signal_count self.now → IsTrue (slice_index_or marks.new s false)
            ↔ DependsOn (input_count self.now) self.now.tables t s }
        ensures built { IsBuilt self.now }
    {
        clear(marks);
        let inputs = self.inputs() as usize;
        for i in self.order() {
            let depends = is_dependent(*i, t, self.table(*i).pins().as_slice(), marks);
            marks[inputs + *i as usize] = depends;
        }
    }

    /// Whether signal `s` is table `t` or reads the table through any number of tables.
    pub fn depends(&self, s: Signal, t: u32) -> Result<bool, AllocError>
        requires signal { s < signal_count self.now }
        requires table { t < table_count self.now }
        ensures { IfOk result
            (λ depends. IsTrue depends ↔ DependsOn (input_count self.now) self.now.tables t s) }
    {
        let mut marks = vec![in *self.allocator(); false; self.signals() as usize]?;
        self.mark_dependents(t, &mut marks);
        Ok(marks[s as usize])
    }
}
