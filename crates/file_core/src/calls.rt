//! The count of the calls on files or a sink in memory; the calls with given numbers fail.
ghost use Rattle.std.specs.Prelude.{◌≡◌, ◌+◌, ◌-◌, ◌≤◌, ◌↔◌, min, IsTrue, is_err, OnOk, OnErr};
ghost use Rattle.file_core.specs.Calls.{one_more, is_listed};
ghost use Rattle.file_core.specs.Counting.{Rises};

use crate::fault::FileFault;
use crate::lists::CallList;

/// The number of calls and of faults, and which calls fail.
#[derive(Debug, Drop)]
pub(crate) struct Calls {
    pub(crate) calls: u64,
    pub(crate) faults: u64,
    pub(crate) failing: CallList,
}

impl Calls {
    /// Counts a call. It fails where its number is listed.
    pub(crate) fn count(&mut self) -> Result<(), FileFault>
        ensures fails { is_err result ≡ is_listed self.old.failing (self.old.calls + 1) }
        ensures ok { OnOk result (self.new ≡ record self.old { calls = one_more self.old.calls }) }
        ensures err { OnErr result
            (self.new
            ≡ record self.old {
              calls = one_more self.old.calls;
              faults = one_more self.old.faults;
            }) }
        ensures rises { Rises self.old self.new }
    {
        let fails = self.failing.lists_next(self.calls);
        self.calls = self.calls.saturating_add(1);
        if fails {
            return Err(self.fault());
        }
        Ok(())
    }

    /// Counts a fault.
    pub(crate) fn fault(&mut self) -> FileFault
        ensures after { self.new ≡ record self.old { faults = one_more self.old.faults } }
        ensures rises { Rises self.old self.new }
    {
        self.faults = self.faults.saturating_add(1);
        FileFault
    }
}
