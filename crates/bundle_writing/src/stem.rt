//! The names of a bundle's files: the stem with each ending.
ghost use Rattle.std.specs.Prelude.{◌≡◌, ◌++◌, IfOk};
ghost use Rattle.job_semantics.specs.Endings.{bundle_name};

use job_semantics::ending::Ending;
use std::alloc::{AllocError, Global};
use std::marker::Model;

/// A stem, held as the five names that begin with it.
#[derive(Drop)]
pub struct Stem {
    netlist: Vec<u8>,
    formula: Vec<u8>,
    log: Vec<u8>,
    vectors: Vec<u8>,
    report: Vec<u8>,
}

impl Model for Stem {
    ghost use Rattle.std.specs.Prelude.{List, ℕ};
    ghost use Rattle.bundle_writing.specs.Names.{stem_of, AreNames};

    ghost Value = { List ℕ };

    ghost view = { λ s. stem_of s.netlist.items };

    ghost invariant = { λ s. AreNames (stem_of s.netlist.items) (record {
      netlist = s.netlist.items;
      formula = s.formula.items;
      log = s.log.items;
      vectors = s.vectors.items;
      report = s.report.items;
    }) };
}

/// The stem with an ending.
fn with_ending(alloc: Global, stem: &[u8], ending: &[u8]) -> Result<Vec<u8>, AllocError>
    ensures { IfOk result (λ name. name.items ≡ stem.now ++ ending.now) }
{
    let mut name = Vec::from_slice(alloc, stem)?;
    name.extend_from_slice(ending)?;
    Ok(name)
}

impl Stem {
    /// The names of this stem.
    pub fn new(alloc: Global, stem: &[u8]) -> Result<Stem, AllocError>
        ensures { IfOk result (λ names. names ≡ stem.now) }
    {
        Ok(Stem {
            netlist: with_ending(alloc, stem, b".blif")?,
            formula: with_ending(alloc, stem, b".cnf")?,
            log: with_ending(alloc, stem, b".lrat")?,
            vectors: with_ending(alloc, stem, b".wit")?,
            report: with_ending(alloc, stem, b".txt")?,
        })
    }

    /// The name of the file with this ending.
    pub fn name(&self, ending: Ending) -> &[u8]
        ensures { result.now ≡ bundle_name self.now ending }
    {
        match ending {
            Ending::Netlist => &self.netlist,
            Ending::Formula => &self.formula,
            Ending::Log => &self.log,
            Ending::Vectors => &self.vectors,
            Ending::Report => &self.report,
        }
    }
}
