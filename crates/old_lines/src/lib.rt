// Files of old lines: neighbour lines without a last-heard time are moved forth to lines with one, or back, until a line is turned down.
#![tactic(auto)]

ghost use Rattle.std.specs.Prelude.{◌≡◌, length};
ghost use Rattle.lists.specs.Lists.{over};
ghost use Rattle.text.specs.Text.{bad_text};
ghost use Rattle.neighbor_line.specs.Moves.{left_of};
ghost use Rattle.old_lines.specs.OldLines.{with_feed, move_refusal, moved_text, line_printed, line_moved, MoveAnswered, EndAnswered};
ghost use Rattle.old_lines.specs.Private.{length_by};

use filter::{Edges, Failed};
use line_filter::LineFilter;
use text::writer::Writer;

// The bytes of the buffer in which a line is kept, and of the one that what it prints is written into. The longest line that can be moved has as many with its
// line feed, and so has the longest that comes of it. So a line that fills the buffer without its line feed can't be moved, and no buffer is too short.
pub const LINE_BYTES: usize = 57;

// Which way lines are moved.
#[derive(Clone, Copy, Debug, PartialEq, Eq)]
pub enum Direction {
    // twelve fields to thirteen, of which the last is 0
    Forth,
    // thirteen fields, of which the last is 0, to twelve
    Back,
}

// What was made of a line: whether it could be moved, and how many bytes it prints.
#[derive(Clone, Copy)]
pub struct Moved {
    // whether it could be moved
    pub good: bool,
    // how many bytes it prints
    pub length: usize,
}

// Moves a line, line feed included.
#[tactic(auto, using(crate::proofs::Lines::by_refusal))]
fn move_whole(direction: Direction, line: &[u8], out: &mut [u8; LINE_BYTES]) -> Option<usize>
    ensures value { result ≡ length_by (move_refusal direction line.now) (moved_text direction line.now) }
    ensures left { out.new ≡ left_of (move_refusal direction line.now) (moved_text direction line.now) out.old }
{
    match direction {
        Direction::Forth => neighbor_line::move_forth(line, out).ok(),
        Direction::Back => neighbor_line::move_back(line, out).ok(),
    }
}

// Moves a line to which its line feed is given back.
#[tactic(auto, using(crate::proofs::Lines::feed_written, crate::proofs::Lines::too_long, crate::proofs::Lines::too_long_left))]
fn move_with_feed(direction: Direction, line: &[u8], out: &mut [u8; LINE_BYTES]) -> Option<usize>
    ensures value { result ≡ length_by (move_refusal direction (with_feed line.now)) (moved_text direction (with_feed line.now)) }
    ensures left { out.new ≡ left_of (move_refusal direction (with_feed line.now)) (moved_text direction (with_feed line.now)) out.old }
{
    if LINE_BYTES <= line.len() {
        return None;
    }
    let mut whole = [0u8; LINE_BYTES];
    text::write(&mut whole, 0, line);
    text::write(&mut whole, line.len(), b"\n");
    move_whole(direction, &whole[..line.len() + 1], out)
}

// Turns a line down: that it is bad is written at the start of a buffer, and its length is returned.
#[tactic(auto, using(text::proofs::Written::from_start, crate::proofs::Lines::bad_short), unfolding(text::specs::Writer::with_text))]
fn turn_down(out: &mut [u8; LINE_BYTES], number: u32) -> usize
    ensures { (result ≡ length (bad_text number)) × (out.new ≡ over out.old (bad_text number)) }
{
    let mut text = Writer::new(out);
    text.write_bad(number);
    text.place()
}

// Moves a line that stands without its line feed, the one of this number. What it prints is written at the start of a buffer: the moved line, or that it is
// bad.
#[tactic(auto, unfolding(crate::specs::OldLines::line_printed, crate::specs::OldLines::line_moved))]
pub fn move_line(
    direction: Direction,
    line: &[u8],
    number: u32,
    out: &mut [u8; LINE_BYTES],
) -> Moved
    ensures { (result ≡ line_moved direction line.now number) × (out.new ≡ over out.old (line_printed direction line.now number)) }
{
    match move_with_feed(direction, line, out) {
        Some(length) => Moved { good: true, length },
        None => Moved {
            good: false,
            length: turn_down(out, number),
        },
    }
}

// Lines that are moved and printed, and how many there were: what `moveforth` and `moveback` make of the lines of their input.
#[derive(Drop)]
pub struct Moving<'a, R> {
    // where they are printed
    pub edges: &'a Edges<'a, R>,
    // which way they are moved
    pub direction: Direction,
    // how many there were, up to the greatest number of 32 bits
    pub number: u32,
}

impl<R: Print + Eprint + Alloc> LineFilter for Moving<'_, R> {
    ghost answers = { λ m line said n. (n.direction ≡ m.direction) × MoveAnswered m.direction m.number line said n.number };

    ghost finishes = { λ m rest said n. (n.direction ≡ m.direction) × EndAnswered m.number rest n.number };

    // A line that can't be moved ends the run.
    fn answer(&mut self, line: &[u8]) -> Result<bool, Failed> {
        self.number = self.number.saturating_add(1);
        let mut out = [0u8; LINE_BYTES];
        let moved = move_line(self.direction, line, self.number, &mut out);
        self.edges.write(&out[..moved.length])?;
        Ok(moved.good)
    }

    // A line that is not ended is bad. The empty line, which is bad too, stands for it.
    fn finish(&mut self, rest: &[u8]) -> Result<(), Failed> {
        if !rest.is_empty() {
            self.answer(b"")?;
        }
        Ok(())
    }
}
