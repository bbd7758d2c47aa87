//! Tables that are one text, a line each: their lines, the parts of a line, and numbers.

/// What stands before the first such byte, and what behind it; where it doesn't stand there, the whole text and nothing.
pub(crate) fn cut(text: &[u8], end: u8) -> (&[u8], &[u8]) {
    for i in 0..text.len() {
        if text[i] == end {
            return (&text[..i], &text[i + 1..]);
        }
    }
    (text, &text[text.len()..])
}

/// The number that the digits write.
pub(crate) fn number(digits: &[u8]) -> u32 {
    let mut number = 0_u32;
    for digit in digits {
        number = number
            .wrapping_mul(10)
            .wrapping_add(u32::from(digit.wrapping_sub(b'0')));
    }
    number
}

/// The number that the digits write, or the greatest of 16 bits where it has more.
pub(crate) fn short_number(digits: &[u8]) -> u16 {
    let number = number(digits);
    if number < 65_536 {
        number as u16
    } else {
        65_535
    }
}
