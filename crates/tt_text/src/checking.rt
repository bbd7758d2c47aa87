//! What is found on the certificate that follows a problem, and the line that says so.
ghost use Rattle.std.specs.Prelude.{◌≡◌, IfOk, drop, string_bytes};
ghost use Rattle.tt_game.specs.Problems.{problem_of};
ghost use Rattle.tt_text.specs.Checking.{Finds, FindsPlain, FindsPlainOrShared, FindsOnProblem, FindsShared, check_line, check_status};

use crate::reasons::UNFIT_PART;
use std::alloc::{AllocError, Global};
use tt_game::{GameFault, Line, problem};
use tt_parts::{read_shared_cert, replay_shared_cert};
use tt_proof::{CertFault, read_cert, replay};
use tt_sgf::{MainLine, NoMemory, SgfFault, read_tree, trim};

/// What is found on a certificate.
#[derive(Clone, Copy, Debug, PartialEq, Eq)]
pub enum CheckOutcome {
    /// Its tree wins.
    Valid,
    /// Its tree doesn't win.
    Invalid,
    /// The input was refused, with this number.
    Refused(u8),
}

impl CheckOutcome {
    /// The exit status.
    pub fn status(&self) -> u8
        ensures { result ≡ check_status self.now }
    {
        match self {
            CheckOutcome::Valid => 0,
            CheckOutcome::Invalid | CheckOutcome::Refused(_) => 1,
        }
    }

    /// The line on a finding.
    pub fn check_line(&self, alloc: Global) -> Result<String, AllocError>
        ensures { IfOk result (λ text. string_bytes text ≡ check_line self.now) }
    {
        match self {
            CheckOutcome::Valid => String::from_str(alloc, "valid\n"),
            CheckOutcome::Invalid => String::from_str(alloc, "invalid\n"),
            CheckOutcome::Refused(code) => format!(in alloc; "refused {code}\n"),
        }
    }
}

/// What is found on bytes at a problem. The line stands as before.
fn check_plain(alloc: Global, line: &mut Line, certificate: &[u8]) -> Result<CheckOutcome, NoMemory>
    ensures { IfOk result (FindsPlain line.old certificate.now) }
{
    let size = line.frame().size;
    match read_cert(alloc, certificate, size) {
        Ok((side, tree)) => match replay(&tree, side, line)? {
            true => Ok(CheckOutcome::Valid),
            false => Ok(CheckOutcome::Invalid),
        },
        Err(CertFault::NoMemory) => Err(NoMemory),
        Err(fault) => Ok(CheckOutcome::Refused(fault.code())),
    }
}

/// What is found on bytes at a problem, where they may share parts. The line stands as before.
fn check_shared(
    alloc: Global,
    line: &mut Line,
    certificate: &[u8],
) -> Result<CheckOutcome, NoMemory>
    ensures { IfOk result (FindsShared line.old certificate.now) }
{
    let size = line.frame().size;
    match read_shared_cert(alloc, certificate, size) {
        Ok((side, outline)) => match replay_shared_cert(alloc, &outline, side, line)? {
            Some(true) => Ok(CheckOutcome::Valid),
            Some(false) => Ok(CheckOutcome::Invalid),
            None => Ok(CheckOutcome::Refused(UNFIT_PART)),
        },
        Err(CertFault::NoMemory) => Err(NoMemory),
        Err(fault) => Ok(CheckOutcome::Refused(fault.code())),
    }
}

/// The one or the other, as parts are asked for.
fn check_plain_or_shared(
    alloc: Global,
    parts: bool,
    line: &mut Line,
    certificate: &[u8],
) -> Result<CheckOutcome, NoMemory>
    ensures { IfOk result (FindsPlainOrShared parts line.old certificate.now) }
{
    if parts {
        check_shared(alloc, line, certificate)
    } else {
        check_plain(alloc, line, certificate)
    }
}

/// What is found on bytes at the problem that a main line is.
fn check_on_problem(
    alloc: Global,
    parts: bool,
    main: &MainLine,
    certificate: &[u8],
) -> Result<CheckOutcome, NoMemory>
    ensures { IfOk result (FindsOnProblem parts (problem_of main.now.nodes) certificate.now) }
{
    match problem(alloc, main) {
        Ok(mut line) => check_plain_or_shared(alloc, parts, &mut line, certificate),
        Err(GameFault::NoMemory) => Err(NoMemory),
        Err(fault) => Ok(CheckOutcome::Refused(fault.code())),
    }
}

/// What is found on the bytes that follow the first tree of an input, at the problem that this
/// tree is. They may share parts where that is said.
pub fn check_input(alloc: Global, parts: bool, input: &[u8]) -> Result<CheckOutcome, NoMemory>
    ensures { IfOk result (Finds parts input.now) }
{
    match read_tree(alloc, input) {
        Ok((main, used)) => check_on_problem(alloc, parts, &main, trim(&input[used..])),
        Err(SgfFault::NoMemory) => Err(NoMemory),
        Err(fault) => Ok(CheckOutcome::Refused(fault.code())),
    }
}
