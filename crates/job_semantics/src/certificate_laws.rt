//! The laws about certificates: each function's contract is a law.
ghost use Rattle.job_semantics.specs.CertificateLaws.{VerifiedLaw, WrittenCertificateLaw, HeldCertificateLaw};
ghost use Rattle.job_semantics.specs.CertificateLaws.{FirstFailingLaw};

/// What a certificate shows.
pub fn verified()
    ensures { VerifiedLaw }
{}

/// Which bundles are written as certificates.
pub fn written()
    ensures { WrittenCertificateLaw }
{}

/// What is held once a bundle that is right was written.
pub fn held()
    ensures { HeldCertificateLaw }
{}

/// Texts that are no certificate.
pub fn failing()
    ensures { FirstFailingLaw }
{}
