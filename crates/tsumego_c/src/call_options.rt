//! The options of a call of `solve`.
ghost use Rattle.std.specs.Prelude.{◌≡◌, ◌≤◌, ◌↔◌, ℕ, IfSome, IsSome};
ghost use Rattle.tt_proof.specs.declared.tree.TheConstants.{MOST_DEPTH};
ghost use Rattle.tt_search.specs.declared.limits.TheConstants.{MOST_EXPANDED};
ghost use Rattle.tsumego_c.specs.Options.{MeansOptions, AreInRange, cert_kind_numbered, unless_zero};

use tt_dfpn::MOST_POSITIONS;
use tt_search::Limits;
use tt_solve::{CertKind, MOST_TOTAL, Options};

/// The number that asks for a certificate with shared parts.
pub const SHARED_CERT: u32 = 2;

/// What a caller asks for, in plain numbers. A total and df-pn's positions are asked for by a number that isn't 0.
#[repr(C)]
#[derive(Clone, Copy)]
pub struct CallOptions {
    /// How many expansions each first turn may take.
    pub budget: u32,
    /// How many turns deep the search may go from the problem.
    pub depth: u32,
    /// How many expansions all first turns may take together.
    pub total: u32,
    /// How many positions df-pn may visit before the search begins.
    pub dfpn: u32,
    /// Which certificate is written: none (0), one (1), one with shared parts (2).
    pub cert: u32,
}

/// A number that isn't 0.
fn unless_zero(n: u32) -> Option<u32>
    ensures same { result ≡ unless_zero n }
    ensures range { (most : ℕ) → n ≤ most → IfSome result (λ m. (1 ≤ m) × (m ≤ most)) }
{
    if n == 0 { None } else { Some(n) }
}

/// The kind of certificate that a number asks for.
fn cert_kind_numbered(n: u32) -> CertKind
    ensures { result ≡ cert_kind_numbered n }
{
    match n {
        0 => CertKind::Unasked,
        1 => CertKind::Plain,
        _ => CertKind::Shared,
    }
}

/// The limits, where budget and depth lie in their ranges.
fn limits_of(budget: u32, depth: u32) -> Option<Limits>
    ensures made { IsSome result
        ↔ ((1 ≤ budget) × (budget ≤ MOST_EXPANDED) × (1 ≤ depth) × (depth ≤ MOST_DEPTH)) }
    ensures limits { IfSome result (λ l. (l.budget ≡ budget) × (l.depth ≡ depth) × (1 ≤ l.depth)) }
{
    if depth == 0 || depth > u32::from(tt_proof::MOST_DEPTH) {
        return None;
    }
    Limits::new(budget, depth as u16)
}

/// The options, where each number lies in its range.
pub fn options_of(numbers: &CallOptions) -> Option<Options>
    ensures in_range { IsSome result ↔ AreInRange numbers.now }
    ensures asked { IfSome result (MeansOptions numbers.now) }
{
    if numbers.total > MOST_TOTAL || numbers.dfpn > MOST_POSITIONS || numbers.cert > SHARED_CERT {
        return None;
    }
    let limits = limits_of(numbers.budget, numbers.depth)?;
    Some(Options {
        limits,
        total: unless_zero(numbers.total),
        dfpn: unless_zero(numbers.dfpn),
        workers: 1,
        cert: cert_kind_numbered(numbers.cert),
        turns: false,
    })
}
