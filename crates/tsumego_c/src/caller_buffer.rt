//! Handing a text over to the caller.
ghost use Rattle.std.specs.Prelude.{◌≡◌, ◌<◌, ◌≤◌, ◌++◌, Ok, drop, false, length, true};
ghost use Rattle.tsumego_c.specs.Calls.{CallEnds};

use crate::statuses::{NO_MEMORY, NO_ROOM};
use tt_sgf::NoMemory;

/// A text and its status: `REFUSED` where something was refused or the certificate is invalid, else `DONE`.
#[derive(Drop)]
pub struct TextAndStatus {
    pub bytes: Vec<u8>,
    pub status: u32,
}

/// Writes the text at the front.
fn copy_to_front(text: &[u8], out: &mut [u8])
    requires { length text.now ≤ length out.old }
    ensures { out.new ≡ text.now ++ drop (length text.now) out.old }
{
    out[..text.len()].copy_from_slice(text);
}

/// Says how many bytes a text takes, writes it where it has room, and answers whether it has.
fn tell_length_and_copy_if_room(text: &[u8], out: &mut [u8], taken: &mut usize) -> bool
    ensures taken { taken.new ≡ length text.now }
    ensures written { result ≡ true → (length text.now ≤ length out.old)
        × (out.new ≡ text.now ++ drop (length text.now) out.old) }
    ensures no_room { result ≡ false → (length out.old < length text.now) × (out.new ≡ out.old) }
{
    *taken = text.len();
    if text.len() > out.len() {
        return false;
    }
    copy_to_front(text, out);
    true
}

/// Says how many bytes a text takes, hands it over where it has room, and answers the status.
pub fn hand_over_text(text: &[u8], status: u32, out: &mut [u8], taken: &mut usize) -> u32
    ensures { CallEnds
        (λ bytes s. (bytes ≡ text.now) × (s ≡ status)) out.old out.new taken.new result }
{
    let has_room = tell_length_and_copy_if_room(text, out, taken);
    if has_room { status } else { NO_ROOM }
}

/// Hands over the text that was made, where memory wasn't refused to it.
pub fn hand_over(made: &Result<TextAndStatus, NoMemory>, out: &mut [u8], taken: &mut usize) -> u32
    ensures { CallEnds (λ bytes status. (t : TextAndStatus) × (made.now ≡ Ok t)
        × (bytes ≡ t.bytes.items) × (status ≡ t.status)) out.old out.new taken.new result }
{
    match made {
        Ok(text) => hand_over_text(text.bytes.as_slice(), text.status, out, taken),
        Err(NoMemory) => {
            *taken = 0;
            NO_MEMORY
        }
    }
}
