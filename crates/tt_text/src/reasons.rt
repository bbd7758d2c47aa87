//! The words of each refusal. They stand where its fault is declared: of an input in `tt_sgf`, of a main line in `tt_game`, of a
//! certificate in `tt_proof`. Number and words of a shared part that doesn't fit stand here: its replay in `tt_parts` answers none, and no
//! fault.

ghost use Rattle.std.specs.Prelude.{◌≢◌, []};
ghost use Rattle.tt_text.specs.Reasons.{IsRefusalNumber};

use tt_game::reason_of_code;
use tt_proof::CertFault;
use tt_sgf::SgfFault;

/// The number of the refusal of a certificate with a shared part that doesn't fit.
pub const UNFIT_PART: u8 = 32;

/// Why an input, a main line or a certificate is refused with this number, in English words. No newline ends them. Empty where no
/// refusal has the number.
pub fn reason_of_refusal(number: u8) -> &'static [u8]
    ensures words { IsRefusalNumber number → result.now ≢ [] }
    ensures numbers { result.now ≢ [] → IsRefusalNumber number }
{
    match number {
        1 => SgfFault::Syntax.reason(),
        2 => SgfFault::TooLong.reason(),
        10..=29 => reason_of_code(number),
        30 => CertFault::Syntax.reason(),
        31 => CertFault::TooDeep.reason(),
        UNFIT_PART => b"a shared part doesn't fit where its name stands",
        _ => b"",
    }
}
