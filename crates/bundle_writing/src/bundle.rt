//! What a synthesis found, before it is written.

use cnf_core::cnf::Cnf;
use cnf_core::log::Log;
pub use job_semantics::version::Version;
use lane_bits::patterns::Patterns;
use net_core::items::Bits;
use net_core::net::Net;
use semantics::metric::Metric;
use std::marker::Model;

/// A simplified net with all that shows what it is. `exact` is the net as it was read and `approx` the
/// simplified one; `maximum` is the greatest error, which `witness` attains, and `bound` the greatest error
/// that was allowed. `pool` are further input vectors: where `minimal` says that no further move of the
/// version is allowed, `witness` or a vector of `pool` breaks each of these moves. `log` refutes `goal`,
/// which says that some error exceeds `maximum`. The witness has at most 256 bits, and each net fewer than
/// 2^63 literals, so that the report and the vectors are written without allocation.
#[derive(Drop)]
pub struct Bundle {
    pub version: Version,
    pub exact: Net,
    pub approx: Net,
    pub metric: Metric,
    pub bound: u128,
    pub maximum: u128,
    pub witness: Bits,
    pub pool: Patterns,
    pub minimal: bool,
    pub goal: Cnf,
    pub log: Log,
}

impl Model for Bundle {
    ghost use Rattle.job_semantics.specs.Bundle.{BundleValue};
    ghost use Rattle.bundle_writing.specs.Value.{FitsReport};

    ghost Value = { BundleValue };

    ghost view = { λ a. record {
      version = a.version;
      exact = a.exact;
      approx = a.approx;
      metric = a.metric;
      bound = a.bound;
      maximum = a.maximum;
      witness = a.witness;
      pool = a.pool.vectors;
      minimal = a.minimal;
      goal = a.goal;
      log = a.log;
    } };

    ghost invariant = { λ a. FitsReport a.exact a.approx a.witness };
}

/// A file of the bundle could not be written whole.
#[derive(Clone, Copy, Debug, PartialEq, Eq)]
pub struct BundleFault;
