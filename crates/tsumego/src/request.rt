//! What the program can be asked to do.

use tt_search::Limits;

/// What the program is asked to do.
#[derive(Clone, Copy, Debug)]
pub enum Command {
    /// Score each game record of the input.
    Score,
    /// Check the certificate that follows the first tree of the input, a problem.
    Check,
    /// Check such a certificate, which may share parts.
    CheckParts,
    /// Solve each problem of the input.
    Solve {
        /// As in `tt_solve::Options`, with the depth from 1 on.
        limits: Limits,
        /// As in `tt_solve::Options`.
        workers: usize,
        /// Whether the certificate of each verdict is written.
        cert: bool,
        /// As in `tt_solve::Options`.
        total: Option<u32>,
        /// As in `tt_solve::Options`.
        dfpn: Option<u32>,
        /// Whether the certificate may share parts. Only then is one written.
        parts: bool,
        /// Whether the value behind each legal turn is written. Then no certificate is.
        turns: bool,
        /// Whether it is shown how far the search is.
        progress: bool,
    },
}
