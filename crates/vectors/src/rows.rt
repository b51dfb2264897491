// The numbers of a row, and the numbers and bytes of an answer.
use std::io::Write;
use std::{fmt, io};

// The numbers of a row: the first `count` of `values`. An array beside its length, since fixed memory is a rule of the project.
#[derive(Clone, Copy)]
pub(crate) struct Row {
    pub values: [u64; 48],
    pub count: usize,
}

impl Row {
    // The numbers of a line, up to 47: hexadecimal in a row of parities or of bytes, else decimal.
    pub(crate) fn parse(line: &[u8], letter: u8) -> Row {
        let base = match letter {
            b'p' | b'r' | b'd' => 16,
            _ => 10,
        };
        let mut row = Row {
            values: [0; 48],
            count: 0,
        };
        let numbers = line
            .split(|&b| digit(b, base).is_none())
            .filter(|digits| !digits.is_empty());
        for (k, digits) in numbers.take(47).enumerate() {
            row.values[k] = number(digits, base);
            row.count = k + 1;
        }
        row
    }

    // What 32 bits hold of each number.
    pub(crate) fn small(&self) -> [u32; 48] {
        self.values.map(|n| (n % 4294967296) as u32)
    }

    // What a byte holds of each number.
    pub(crate) fn bytes(&self) -> [u8; 48] {
        self.values.map(|n| (n % 256) as u8)
    }
}

// A digit's value. By hand: a number may be longer than 64 bits, and the digits above 9 are capitals alone.
fn digit(letter: u8, base: u64) -> Option<u64> {
    match letter {
        b'0'..=b'9' => Some(u64::from(letter - b'0')),
        b'A'..=b'F' if base == 16 => Some(u64::from(letter - b'A') + 10),
        _ => None,
    }
}

// The number that the digits are, in 64 bits. In base 10 what stands before a digit is first taken modulo 1844674407370955162, a tenth of 2^64 rounded up.
fn number(digits: &[u8], base: u64) -> u64 {
    digits
        .iter()
        .filter_map(|&b| digit(b, base))
        .fold(0u64, |n, d| {
            let kept = match base {
                10 => n % 1844674407370955162,
                _ => n,
            };
            kept.wrapping_mul(base).wrapping_add(d)
        })
}

pub(crate) fn put(to: &impl Print, text: &[u8]) -> io::Result<()> {
    io::writer(to).write_all(text)
}

pub(crate) fn show_bytes(to: &impl Print, bytes: &[u8]) -> io::Result<()> {
    for byte in bytes {
        print!(to; " {byte:02x}")?;
    }
    Ok(())
}

pub(crate) fn show_all<T: fmt::Display>(to: &impl Print, numbers: &[T]) -> io::Result<()> {
    for n in numbers {
        print!(to; " {n}")?;
    }
    Ok(())
}
