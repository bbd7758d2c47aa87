//! Laws of certificates with shared parts, over the definitions alone.

ghost use Rattle.tt_parts.specs.OutlineLaws.{OneOutlinePerCertificate, PlainIsSharedCertificate, OneAnswerPerOutline};

/// Bytes are the certificate with shared parts of one side and one outline at the most, and so of one tree.
pub fn one_outline_per_certificate()
    ensures { OneOutlinePerCertificate }
{}

/// A certificate is one with shared parts, of the same tree, and no part of it doesn't fit.
pub fn plain_is_shared_certificate()
    ensures { PlainIsSharedCertificate }
{}

/// The rule for shared parts has one answer to an outline at a state: it wins, it doesn't, or a part doesn't fit.
pub fn one_answer_per_outline()
    ensures { OneAnswerPerOutline }
{}
