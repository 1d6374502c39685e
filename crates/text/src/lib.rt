// Text as slices of bytes: the parts of a line, numbers read off a part, and numbers written into a lent buffer.
#![tactic(auto)]

ghost use Rattle.std.specs.Prelude.{◌≡◌, [], ◌+◌, ◌-◌, ◌^◌, ◌≤◌, ◌<◌, min, not, ◌||◌, eqb, leb, length, take, drop, get_or};
ghost use Rattle.std.proofs.lemmas.List.Edits.{sets};
ghost use Rattle.text.specs.Text.{parts, fields, digit_of, number_from, decimal_of, hex_of, digit_byte, decimal_text, hex_text, right_text};

pub mod form;
pub mod writer;

// Part k of a text that is parted by `sep`, from 0; empty where there is no such part. Text and place are two parameters: the place is a number in the call.
pub fn part(s: &[u8], sep: u8, k: usize) -> &[u8]
    ensures { result.now ≡ get_or (parts sep s.now) k [] }
{
    s.split(|b| *b == sep).nth(k).unwrap_or(&[])
}

// How many parts a text has.
pub fn part_count(s: &[u8], sep: u8) -> usize
    ensures { result ≡ length (parts sep s.now) }
{
    s.split(|b| *b == sep).count()
}

// Field k of a line, from 0: the part of the line between its tabs.
pub fn field(line: &[u8], k: usize) -> &[u8]
    ensures { result.now ≡ get_or (fields line.now) k [] }
{
    part(line, b'\t', k)
}

// The value of a digit, and 16 for any other byte. No `Option`: one test against the base turns down both what is no digit and a digit that is too great.
#[tactic(auto, unfolding(crate::specs::Text::digit_of))]
fn digit(b: u8) -> u64
    ensures { result ≡ digit_of b }
{
    match b {
        b'0'..=b'9' => u64::from(b - b'0'),
        b'a'..=b'f' => u64::from(b - b'a' + 10),
        _ => 16,
    }
}

// The number that digits in a base make.
fn number(f: &[u8], base: u64, limit: u64) -> Option<u64>
    requires { 0 < base }
    ensures { result ≡ number_from base limit 0 f.now }
{
    let mut v: u64 = 0;
    for b in f {
        let d = digit(*b);
        if base <= d {
            return None;
        }
        v = v.checked_mul(base)?.checked_add(d)?;
        if limit < v {
            return None;
        }
    }
    Some(v)
}

// Whether a text of two bytes or more begins with the digit 0.
fn has_leading_zero(f: &[u8]) -> bool
    ensures { result ≡ not (leb (length f.now) 1 || not (eqb (get_or f.now 0 0) 48)) }
{
    1 < f.len() && f[0] == b'0'
}

// The decimal number that a text is.
#[tactic(auto, unfolding(crate::specs::Text::decimal_of))]
pub fn decimal(f: &[u8], limit: u32) -> Option<u64>
    ensures { result ≡ decimal_of limit f.now }
{
    if f.is_empty() || has_leading_zero(f) {
        return None;
    }
    number(f, 10, u64::from(limit))
}

// The hexadecimal number of so many digits that a text is.
#[tactic(auto, unfolding(crate::specs::Text::hex_of))]
pub fn hex(f: &[u8], digits: usize) -> Option<u64>
    ensures { result ≡ hex_of digits f.now }
{
    if f.len() != digits {
        return None;
    }
    number(f, 16, u64::MAX)
}

// How many bytes of a text fit at a place of a buffer.
fn room(size: usize, at: usize, wanted: usize) -> usize
    ensures { result ≡ min wanted (size - at) }
{
    wanted.min(size.saturating_sub(at))
}

// Writes a text at a place, as far as it fits, and returns its length.
// Buffer and place are two parameters here and below: the length is that of all the text, fits it or not, which a `Writer`, built on these, does not give.
pub fn write(out: &mut [u8], at: usize, s: &[u8]) -> usize
    ensures { (result ≡ length s.now) × (out.new ≡ sets out.old at s.now) }
{
    let n = room(out.len(), at, s.len());
    let from = at.min(out.len());
    out[from..from + n].copy_from_slice(&s[..n]);
    s.len()
}

// The byte of a digit below 16.
#[tactic(auto, unfolding(crate::specs::Text::digit_byte))]
fn digit_byte(d: u8) -> u8
    requires { d < 16 }
    ensures { result ≡ digit_byte d }
{
    if d < 10 { b'0' + d } else { b'a' + (d - 10) }
}

// The powers of ten, each at the place that its digit has among ten.
const POWERS_OF_TEN: [u32; 10] = [
    1_000_000_000,
    100_000_000,
    10_000_000,
    1_000_000,
    100_000,
    10_000,
    1_000,
    100,
    10,
    1,
];

// The power of ten at a place.
fn power_at(place: usize) -> u32
    requires { place < 10 }
    ensures { result ≡ 10 ^ (9 - place) }
{
    POWERS_OF_TEN[place]
}

// The place of a number's first digit among ten: that of the greatest power that it reaches; 0 has the last.
fn first_place(n: u32) -> usize
    ensures { (result ≤ 9) × (n < 10 ^ (10 - result)) × (result < 9 → 10 ^ (9 - result) ≤ n) }
{
    POWERS_OF_TEN
        .iter()
        .position(|power| *power <= n)
        .unwrap_or(9)
}

// A number in decimal at the end of ten bytes; the result is where it begins, and what stands before it stays.
// A turn takes the power of a place once, or goes on to the next place.
// Of a loop for one power a compiler may make a division (docs/DECISIONS.md, "Decimals").
fn fill_decimal(bytes: &mut [u8], n: u32) -> usize
    requires { length bytes.old ≡ 10 }
    ensures { (result < 10) × (drop result bytes.new ≡ decimal_text n) × (take result bytes.new ≡ take result bytes.old) }
{
    let first = first_place(n);
    let mut at = first;
    let mut power = power_at(at);
    let mut left = n;
    let mut byte = b'0';
    loop {
        if power <= left {
            left -= power;
            byte += 1;
        } else {
            bytes[at] = byte;
            if at == 9 {
                return first;
            }
            at += 1;
            power = power_at(at);
            byte = b'0';
        }
    }
}

// Writes a number in decimal at a place, as far as it fits, and returns how many digits it has.
pub fn write_decimal(out: &mut [u8], at: usize, n: u32) -> usize
    ensures { (result ≡ length (decimal_text n)) × (out.new ≡ sets out.old at (decimal_text n)) }
{
    let mut bytes = [0u8; 10];
    let a = fill_decimal(&mut bytes, n);
    write(out, at, &bytes[a..])
}

// Writes a number in decimal at a place, right-aligned with spaces in so many characters but at most ten, as far as they fit. Returns how many.
pub fn write_decimal_right(out: &mut [u8], at: usize, n: u32, width: usize) -> usize
    ensures { (result ≡ length (right_text (min width 10) (decimal_text n))) × (out.new ≡ sets out.old at (right_text (min width 10) (decimal_text n))) }
{
    let mut bytes = [b' '; 10];
    fill_decimal(&mut bytes, n);
    let start = 10usize.saturating_sub(width);
    write(out, at, &bytes[start..])
}

// The last hexadecimal digits of a number, in sixteen bytes from a place to the end.
fn fill_hex(bytes: &mut [u8], from: usize, n: u64)
    requires { (length bytes.old ≡ 16) × (from ≤ 16) }
    ensures { drop from bytes.new ≡ hex_text (16 - from) n }
{
    let mut left = n;
    for at in (from..16).rev() {
        bytes[at] = digit_byte((left % 16) as u8);
        left /= 16;
    }
}

// Writes the last hexadecimal digits of a number, so many but at most 16, at a place, as far as they fit. Returns how many.
pub fn write_hex(out: &mut [u8], at: usize, n: u64, digits: usize) -> usize
    ensures { (result ≡ length (hex_text (min digits 16) n)) × (out.new ≡ sets out.old at (hex_text (min digits 16) n)) }
{
    let mut bytes = [0u8; 16];
    let from = 16usize.saturating_sub(digits);
    fill_hex(&mut bytes, from, n);
    write(out, at, &bytes[from..])
}
