// Reads a trace from standard input and prints what the node answers.
#![tactic(auto)]

ghost use Rattle.std.specs.Prelude.{◌≡◌, [], ◌&&◌, IfOk, cond, eqb, length};
ghost use Rattle.trace.specs.Trace.{run_after};

use filter::{Edges, Failed};
use line_filter::LineFilter;
use std::process::ExitCode;
use trace::Run;

// What is printed if there is an argument.
const USAGE: &[u8] = b"Usage: nodetrace < TRACE\n\
    \n\
    Tells what a node does, call by call.\n\
    \n\
    It reads a trace on standard input: a node's state, then the calls made on it,\n\
    a line each. Fields are parted by one tab, and each line is ended by a line\n\
    feed.\n\
    \n\
    It prints what the node answers to a line before it reads the next: requests\n\
    to the radio, notes, confirms, answers and refusals. If a line is not of the\n\
    format, it prints bad, a tab and the line's number, and ends.\n\
    \n\
    docs/NODETRACE.md follows a trace through, compare/FORMAT.md has the format.\n\
    Any argument prints this text.\n";

// A run whose answers are printed.
#[derive(Drop)]
struct Printing<'a> {
    edges: &'a Edges<'a, HostRuntime>,
    run: Run,
}

impl LineFilter for Printing<'_> {
    ghost answers = { λ p line said q. (q.run ≡ run_after line p.run) × IfOk said (λ goes_on. goes_on ≡ q.run.good) };

    ghost finishes = { λ p rest said q. q.run ≡ cond (eqb (length rest) 0 && eqb p.run.session.missing 0) p.run (run_after [] p.run) };

    // A bad line ends the run. `nodetrace_cases` answers a line alike: one for both would be a crate more, since `trace` prints nothing and `filter` knows no
    // run.
    fn answer(&mut self, line: &[u8]) -> Result<bool, Failed> {
        let mut out = [0u8; trace::TURN_BYTES];
        let next = self.run.answer_line(line, &mut out);
        self.run = next;
        self.edges.write(&out[..next.length])?;
        Ok(next.good)
    }

    // A line that is not ended is bad, and so is a beacon that is missing. The empty line, which is bad too, stands for either.
    fn finish(&mut self, rest: &[u8]) -> Result<(), Failed> {
        if !rest.is_empty() || self.run.session.missing != 0 {
            self.answer(b"")?;
        }
        Ok(())
    }
}

// Of a line 512 bytes are kept at most, since no line of so many is of the format.
fn run(edges: &Edges<HostRuntime>) -> Result<(), Failed> {
    if edges.print_usage(edges.word_count(), USAGE)? {
        return Ok(());
    }
    let mut printing = Printing {
        edges,
        run: Run::new(),
    };
    line_filter::answer_input(edges, &mut printing, &mut [0u8; 512])
}

fn main(rt: HostRuntime) -> ExitCode {
    let edges = Edges {
        rt: &rt,
        program: b"nodetrace",
    };
    filter::status(run(&edges))
}
