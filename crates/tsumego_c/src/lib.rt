//! The solver for programs in other languages: bytes in, bytes out. Each call answers for one game tree, starts no thread and
//! keeps nothing. `c/tsumego.h` says what callers owe; `c/tsumego.c` refuses null before it comes here.
//!
//! | Module | What it has |
//! |---|---|
//! | `call_options` | the options of a call |
//! | `first_tree_text` | the answer for the first tree of an input, without threads |
//! | `first_refusal` | where the first tree of an input is refused |
//! | `caller_buffer` | hands a text to the caller |
//! | `statuses` | the statuses of calls |
//! | `laws` | the answer is that of a run of the program |
#![tactic(auto)]

mod call_options;
mod caller_buffer;
mod first_refusal;
mod first_tree_text;
pub mod laws;
mod statuses;

ghost use Rattle.std.specs.Prelude.{◌≡◌, ◌≢◌, ◌↔◌, []};
ghost use Rattle.tt_text.specs.Checking.{IsCheckText};
ghost use Rattle.tt_text.specs.Reasons.{IsRefusalNumber};
ghost use Rattle.tt_text.specs.Scoring.{Scores};
ghost use Rattle.tsumego_c.specs.Calls.{CallEnds, WritesNothing};
ghost use Rattle.tsumego_c.specs.declared.statuses.TheConstants.{BAD_OPTION, DONE};
ghost use Rattle.tsumego_c.specs.First.{IsFirstTreeText};
ghost use Rattle.tsumego_c.specs.Options.{AreInRange, IsSolveText};
ghost use Rattle.tsumego_c.specs.Refusals.{IsExplained};

pub use call_options::CallOptions;
use call_options::options_of;
use caller_buffer::{hand_over, hand_over_text};
pub use first_refusal::Refusal;
use first_refusal::explain;
use first_tree_text::{check_text, score_text, solve_text};
use statuses::{BAD_OPTION, DONE};
use std::alloc::Global;
use tt_text::reason_of_refusal;

/// Scores the record that is the first tree of an input.
#[unsafe(no_mangle)]
pub extern "C" fn tsumego_c_score(
    alloc: Global,
    sgf: &[u8],
    out: &mut [u8],
    taken: &mut usize,
) -> u32
    ensures { CallEnds (IsFirstTreeText Scores sgf.now) out.old out.new taken.new result }
{
    let made = score_text(alloc, sgf);
    hand_over(&made, out, taken)
}

/// Checks the certificate that follows the first tree of an input. It may share parts where that is said.
#[unsafe(no_mangle)]
pub extern "C" fn tsumego_c_check(
    alloc: Global,
    sgf: &[u8],
    parts: bool,
    out: &mut [u8],
    taken: &mut usize,
) -> u32
    ensures { CallEnds (IsCheckText parts sgf.now) out.old out.new taken.new result }
{
    let made = check_text(alloc, parts, sgf);
    hand_over(&made, out, taken)
}

/// Solves the problem that is the first tree of an input.
#[unsafe(no_mangle)]
pub extern "C" fn tsumego_c_solve(
    alloc: Global,
    sgf: &[u8],
    options: &CallOptions,
    out: &mut [u8],
    taken: &mut usize,
) -> u32
    ensures solved { AreInRange options.now
        → CallEnds (IsSolveText options.now sgf.now) out.old out.new taken.new result }
    ensures refused { ¬ AreInRange options.now
        → (result ≡ BAD_OPTION) × WritesNothing out.old out.new taken.new }
{
    match options_of(options) {
        Some(options) => {
            let made = solve_text(alloc, sgf, options);
            hand_over(&made, out, taken)
        }
        None => {
            *taken = 0;
            BAD_OPTION
        }
    }
}

/// Says where the first tree of an input is refused, as a record or as a problem.
#[unsafe(no_mangle)]
pub extern "C" fn tsumego_c_explain(
    alloc: Global,
    sgf: &[u8],
    is_record: bool,
    refusal: &mut Refusal,
) -> u32
    ensures { IsExplained is_record sgf.now refusal.new result }
{
    explain(alloc, sgf, is_record, refusal)
}

/// Hands over the words of the refusal with this number: no byte where no refusal has it.
#[unsafe(no_mangle)]
pub extern "C" fn tsumego_c_reason(number: u8, out: &mut [u8], taken: &mut usize) -> u32
    ensures { CallEnds
        (λ words status. ((words ≢ []) ↔ IsRefusalNumber number) × (status ≡ DONE)) out.old out.new taken.new result }
{
    hand_over_text(reason_of_refusal(number), DONE, out, taken)
}
