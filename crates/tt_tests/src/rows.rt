//! Tables that are one text, a line each: their lines, the parts of a line, and numbers.

use std::alloc::Global;

/// What stands before the first such byte, and what behind it; where it doesn't stand there, the whole text and nothing.
pub(crate) fn cut(text: &[u8], end: u8) -> (&[u8], &[u8]) {
    for i in 0..text.len() {
        if text[i] == end {
            return (&text[..i], &text[i + 1..]);
        }
    }
    (text, &text[text.len()..])
}

/// The number that the digits write.
pub(crate) fn number(digits: &[u8]) -> u32 {
    let mut number = 0_u32;
    for digit in digits {
        number = number
            .wrapping_mul(10)
            .wrapping_add(u32::from(digit.wrapping_sub(b'0')));
    }
    number
}

/// The number that the digits write, or the greatest of 16 bits where it has more.
pub(crate) fn short_number(digits: &[u8]) -> u16 {
    let number = number(digits);
    if number < 65_536 {
        number as u16
    } else {
        65_535
    }
}

/// What the lines of a table tell.
pub(crate) trait Table {
    /// Whether a line is so.
    fn holds(alloc: Global, line: &[u8]) -> bool;
}

/// How many lines of a table are so before the first that isn't: all, where each is. Such a byte ends each line.
pub(crate) fn holding<T: Table>(alloc: Global, table: &'static str, end: u8) -> usize {
    let mut rest = table.as_bytes();
    for row in 0..table.len() {
        let (line, behind) = cut(rest, end);
        if rest.is_empty() || !T::holds(alloc, line) {
            return row;
        }
        rest = behind;
    }
    0
}
