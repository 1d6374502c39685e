// Writes numbers in decimal, and says which of them the toolchain's own writer, which divides, writes otherwise.
// The numbers are 0 to 100,000, each power of ten with the number before and behind it, and 4,294,967,295.
#![tactic(auto)]

use filter::{Edges, Failed};

// Above 100,000: the powers of ten, each with the number before and behind it, and the greatest number of 32 bits.
const NUMBERS: [u32; 14] = [
    100_001,
    999_999,
    1_000_000,
    1_000_001,
    9_999_999,
    10_000_000,
    10_000_001,
    99_999_999,
    100_000_000,
    100_000_001,
    999_999_999,
    1_000_000_000,
    1_000_000_001,
    4_294_967_295,
];

// The byte at a place among bytes `#` where digits are written from byte 4 on, right-aligned in so many characters.
fn expected_at(digits: &[u8], width: usize, i: usize) -> u8 {
    if i < 4 {
        return b'#';
    }
    let at = i - 4;
    if width <= at {
        return b'#';
    }
    let behind = width - at;
    if digits.len() < behind {
        return b' ';
    }
    digits[digits.len() - behind]
}

// Whether these bytes are the expected ones.
fn is_expected(bytes: &[u8], digits: &[u8], width: usize) -> bool {
    bytes
        .iter()
        .enumerate()
        .all(|(i, byte)| *byte == expected_at(digits, width, i))
}

// Whether a number is written as these digits.
fn is_left(n: u32, digits: &[u8]) -> bool {
    let mut bytes = [b'#'; 20];
    text::write_decimal(&mut bytes, 4, n) == digits.len()
        && is_expected(&bytes, digits, digits.len())
}

// Whether a number is written as these digits, right-aligned in so many characters.
fn is_right(n: u32, digits: &[u8], width: usize) -> bool {
    let mut bytes = [b'#'; 20];
    text::write_decimal_right(&mut bytes, 4, n, width) == width
        && is_expected(&bytes, digits, width)
}

// Whether a number is written as by division, at the left, and right-aligned in ten characters and in three.
fn is_alike(n: u32) -> bool {
    let mut digits = [0u8; 20];
    let count = io::decimal(u64::from(n), &mut digits);
    let divided = &digits[..count];
    is_left(n, divided) && is_right(n, divided, 10) && is_right(n, divided, 3)
}

// Prints a number as by division, on a line of its own.
fn print_divided(edges: &Edges<HostRuntime>, n: u32) -> Result<(), Failed> {
    let mut digits = [0u8; 20];
    let count = io::decimal(u64::from(n), &mut digits);
    edges.write(&digits[..count])?;
    edges.write(b"\n")
}

// How many numbers were written, and how many of them otherwise than by division.
#[derive(Clone, Copy, Default)]
struct Tally {
    written: u32,
    otherwise: u32,
}

impl Tally {
    // Writes a number; one that is written otherwise is printed as by division.
    fn try_number(&mut self, edges: &Edges<HostRuntime>, n: u32) {
        self.written = self.written.wrapping_add(1);
        if !is_alike(n) {
            let _ = print_divided(edges, n);
            self.otherwise = self.otherwise.wrapping_add(1);
        }
    }

    fn print(&self, edges: &Edges<HostRuntime>) {
        let mut line = [b' '; 48];
        text::write_decimal_right(&mut line, 0, self.written, 10);
        text::write(&mut line, 10, b" numbers, written otherwise");
        text::write_decimal_right(&mut line, 37, self.otherwise, 10);
        line[47] = b'\n';
        let _ = edges.write(&line);
    }
}

fn main(rt: HostRuntime) {
    let edges = Edges {
        rt: &rt,
        program: b"decimals",
    };
    let mut tally = Tally::default();
    for n in (0..100_001).chain(NUMBERS) {
        tally.try_number(&edges, n);
    }
    tally.print(&edges);
}
