// The loop of a program that answers its input line by line: standard input is read in pieces, its lines are taken out of them, and each is answered before the
// next read.
#![tactic(auto)]

ghost use Rattle.std.specs.Prelude.{ℕ, ◌≡◌, ◌≤◌, Bool, List, Result, length};
ghost use Rattle.filter.specs.declared.Failed.{Failed};
ghost use Rattle.line_filter.specs.Runs.{RunOver, cut_parts};
ghost use Rattle.line_filter.specs.Private.{KeptWithin, Goes};

use filter::{Edges, Failed};
use std::io;

// What a program makes of the lines of its input.
pub trait LineFilter {
    // what holds of it before a line, the line, what it says, and of it then
    ghost answers: { Self → List ℕ → Result Bool Failed → Self → Type 0 };

    // and where the end is answered
    ghost finishes: { Self → List ℕ → Result (Unit {0}) Failed → Self → Type 0 };

    // Answers a line, without its line feed, and says whether the run goes on.
    fn answer(&mut self, line: &[u8]) -> Result<bool, Failed>
        ensures { answers self.old line.now result self.new };

    // Answers the end of the input, and what stands there that no line feed ends.
    fn finish(&mut self, rest: &[u8]) -> Result<(), Failed>
        ensures { finishes self.old rest.now result self.new };
}

// Answers the lines that are ended in the next bytes of the input, and says how many bytes are kept of one that is not ended; nothing where the run is over.
fn answer_piece<F: LineFilter>(
    filter: &mut F,
    line: &mut [u8],
    mut kept: usize,
    piece: &[u8],
) -> Result<Option<usize>, Failed>
    requires { kept ≤ length line.old }
    ensures within { KeptWithin result line.new }
    ensures goes { Goes F.answers F.finishes filter.old line.old kept piece.now result line.new filter.new }
{
    let mut at = 0;
    while at < piece.len() {
        let taken = pieces::take_line(line, kept, piece, at);
        at = taken.at;
        kept = taken.kept;
        if taken.ended {
            if !filter.answer(&line[..kept])? {
                return Ok(None);
            }
            kept = 0;
        }
    }
    Ok(Some(kept))
}

// Answers the lines of standard input until the run is over: the input is, or a line has ended the run, or an edge has failed. Of a line as many bytes are kept
// as the lent buffer has. Which bytes come is the system's: what is promised is that there is an input of whose lines this is a run.
// A proved loop has to end, and nothing says that the input does: the loop has more turns than any run uses up. Behind them a run would end as where a read
// fails.
pub fn answer_input<R: io::Input + Eprint + Alloc, F: LineFilter>(
    edges: &Edges<R>,
    filter: &mut F,
    line: &mut [u8],
) -> Result<(), Failed>
    ensures { (input : List ℕ) × RunOver F.answers F.finishes filter.old (cut_parts (length line.old) input) result filter.new }
{
    let mut kept = 0;
    for _ in 0..u64::MAX {
        let mut piece = [0u8; 16384];
        let n = edges.read(&mut piece)?;
        if n == 0 {
            return filter.finish(&line[..kept]);
        }
        match answer_piece(filter, line, kept, &piece[..n])? {
            Some(now_kept) => kept = now_kept,
            None => return Ok(()),
        }
    }
    Err(Failed)
}
