// Hexadecimal numbers in columns of a line, the highest digit first.

const DIGITS: &[u8; 16] = b"0123456789abcdef";

// What a digit stands for; 0 for anything else. Not text::digit, which reads capitals too: the answers to any line stay as they were.
fn digit(c: u8) -> u64 {
    match c {
        b'0'..=b'9' => u64::from(c - b'0'),
        b'a'..=b'f' => u64::from(c - b'a') + 10,
        _ => 0,
    }
}

// The number in these columns of a job.
pub(crate) fn number(columns: &[u8]) -> u64 {
    columns.iter().fold(0, |x, c| (x << 4) | digit(*c))
}

pub(crate) fn byte(columns: &[u8]) -> u8 {
    (number(columns) % 256) as u8
}

// The number's lowest digits into these columns of an answer.
pub(crate) fn put(columns: &mut [u8], x: u64) {
    let mut rest = x;
    for column in columns.iter_mut().rev() {
        *column = DIGITS[(rest % 16) as usize];
        rest = rest / 16;
    }
}
