// Lines out of an input that comes in pieces of any size. A line is the bytes up to a line feed. A program lends a buffer, in which the bytes of one line are
// kept until it is ended: as many of them as there is room for.
#![tactic(auto)]

ghost use Rattle.std.specs.Prelude.{◌≡◌, ◌+◌, min, length};
ghost use Rattle.pieces.specs.Pieces.{line_taken, line_after, Usable};

// What was taken of a piece: the place behind it, how many bytes of the line are kept now, and whether the line is ended.
#[derive(Clone, Copy)]
pub struct Taken {
    // the place behind what was taken
    pub at: usize,
    // how many bytes of the line are kept
    pub kept: usize,
    // whether a line feed ended the line
    pub ended: bool,
}

// How many bytes of a line are kept once more of them have come: as many as there is room for.
fn kept_with(size: usize, kept: usize, more: usize) -> usize
    ensures { result ≡ min (kept + more) size }
{
    kept.saturating_add(more).min(size)
}

// Takes one line's bytes out of a piece, from a place on: those up to its next line feed, or to its end. They are put behind the first `kept` bytes of the
// lent buffer, as far as there is room; the rest of the buffer stays. The line feed is taken, but not kept.
// Buffer and count are two parameters, in place of a `Vec`: nothing is allocated, and a line of any length is answered with the bytes that the program lends.
pub fn take_line(line: &mut [u8], kept: usize, piece: &[u8], at: usize) -> Taken
    ensures value { result ≡ line_taken (length line.old) kept piece.now at }
    ensures line_after { line.new ≡ line_after line.old kept piece.now at }
    ensures usable { Usable line.new piece.now at result }
{
    if piece.len() <= at {
        return Taken {
            at,
            kept: kept_with(line.len(), kept, 0),
            ended: false,
        };
    }
    let left = piece.len() - at;
    let more = text::write(line, kept, text::part(&piece[at..], b'\n', 0));
    let now_kept = kept_with(line.len(), kept, more);
    if more < left {
        return Taken {
            at: at + more + 1,
            kept: now_kept,
            ended: true,
        };
    }
    Taken {
        at: at + more,
        kept: now_kept,
        ended: false,
    }
}
