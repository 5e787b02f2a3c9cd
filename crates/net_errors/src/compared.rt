//! Two nets that are compared.
ghost use Rattle.std.specs.Prelude.{◌≡◌};
ghost use Rattle.semantics.specs.Error.{IsCandidate};

use net_core::net::Net;
use std::marker::Model;

/// A net and one that may be judged against it: both have the same ports, and at most 64 outputs.
#[derive(Drop)]
pub struct Compared<'a> {
    exact: &'a Net,
    approx: &'a Net,
}

impl<'a> Model for Compared<'a> {
    ghost use Rattle.semantics.specs.Error.{IsCandidate};
    ghost use Rattle.net_errors.specs.Compared.{NetPair};

    ghost Value = { NetPair };

    ghost view = { λ p. record { exact = p.exact.now; approx = p.approx.now } };

    ghost invariant = { λ p. IsCandidate p.exact.now p.approx.now };
}

impl<'a> Compared<'a> {
    /// These two nets.
    pub fn new(exact: &'a Net, approx: &'a Net) -> Compared<'a>
        requires { IsCandidate exact.now approx.now }
        ensures { result ≡ record { exact = exact.now; approx = approx.now } }
    {
        Compared { exact, approx }
    }

    /// The exact net.
    pub fn exact(&self) -> &'a Net
        ensures value { result.now ≡ self.now.exact }
        ensures candidate { IsCandidate self.now.exact self.now.approx }
    {
        self.exact
    }

    /// The approximate net.
    pub fn approx(&self) -> &'a Net
        ensures value { result.now ≡ self.now.approx }
        ensures candidate { IsCandidate self.now.exact self.now.approx }
    {
        self.approx
    }
}
