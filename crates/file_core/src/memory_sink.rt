//! A sink in memory, which can be made to fail and to work in small chunks.
ghost use Rattle.std.specs.Prelude.{◌≡◌, ◌<◌, ◌≤◌, [], min, length, take, IsTrue, IsErr, IfOk, OnErr};
ghost use Rattle.outside_semantics.specs.Outside.{Took, TakeFailed};
ghost use Rattle.file_core.specs.MemorySink.{sink_at_first, memory_sink_told, put_fails_next, took};
ghost use Rattle.file_core.specs.MemorySink.{not_taken};

use crate::calls::Calls;
use crate::fault::FileFault;
use crate::lists::CallList;
use crate::sink::Sink;
use crate::word::Word;
use std::alloc::Global;
use std::marker::Model;

/// A sink that keeps what is put. A call fails where its number is listed, and for want of memory.
#[derive(Drop)]
pub struct MemSink {
    bytes: Word,
    calls: Calls,
    chunk: usize,
}

impl Model for MemSink {
    ghost use Rattle.std.specs.Prelude.{◌<◌};
    ghost use Rattle.file_core.specs.MemorySink.{MemorySinkValue, memory_sink_code};

    ghost Value = { MemorySinkValue };

    ghost coded = { memory_sink_code };

    ghost view = { λ m. record {
      put_bytes = m.bytes;
      faults = m.calls.faults;
      calls = m.calls.calls;
      failing = m.calls.failing;
      chunk = m.chunk;
    } };

    ghost invariant = { λ m. 0 < m.chunk };
}

impl MemSink {
    /// A sink that holds nothing, where the calls with these numbers fail and a call takes at most `chunk`
    /// bytes.
    pub fn new(alloc: Global, failing: CallList, chunk: usize) -> MemSink
        requires { 0 < chunk }
        ensures { result ≡ sink_at_first failing chunk }
    {
        MemSink {
            bytes: Word::empty(alloc),
            calls: Calls {
                calls: 0,
                faults: 0,
                failing,
            },
            chunk,
        }
    }

    /// The bytes that were put.
    pub fn bytes(&self) -> &[u8]
        ensures { result.now ≡ self.now.put_bytes }
    {
        self.bytes.bytes()
    }
}

impl Sink for MemSink {
    ghost told = { memory_sink_told };

    fn put(&mut self, piece: &[u8]) -> Result<usize, FileFault>
        ensures within { IfOk result (λ n. n ≤ length piece.now) }
        ensures progress { IfOk result (λ n. 0 < length piece.now → 0 < n) }
        ensures ok { IfOk result
            (λ n. Took (memory_sink_told self.old) (memory_sink_told self.new) (take n piece.now)) }
        ensures err { OnErr result
            (TakeFailed (memory_sink_told self.old) (memory_sink_told self.new) []) }
        ensures listed { IsTrue (put_fails_next self.old) → IsErr result }
        ensures nothing { piece.now ≡ [] → IsErr result → IsTrue (put_fails_next self.old) }
        ensures count { IfOk result (λ n. n ≡ min (length piece.now) self.old.chunk) }
        ensures after_ok { IfOk result (λ n. self.new ≡ took self.old (take n piece.now)) }
        ensures after_err { OnErr result (self.new ≡ not_taken self.old) }
    {
        self.calls.count()?;
        let count = piece.len().min(self.chunk);
        match self.bytes.extend(&piece[..count]) {
            Ok(()) => Ok(count),
            Err(_) => Err(self.calls.fault()),
        }
    }
}
