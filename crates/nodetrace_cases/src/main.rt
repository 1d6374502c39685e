// Runs traces that stand in one input, parted by the byte 0x1e.
// A case is a line with its name, and then the trace. Its name and its answers are printed.
#![tactic(auto)]

use filter::{Edges, Failed};
use trace::Run;

// The case is over: a line was bad, or its answer could not be printed.
#[derive(Drop)]
struct Over;

impl From<Failed> for Over {
    fn from(_: Failed) -> Over {
        Over
    }
}

// Answers a line that is ended. `nodetrace` has the same: one for both would be a crate more, since `trace` prints nothing and `filter` knows no run.
fn answer(edges: &Edges<HostRuntime>, run: Run, line: &[u8]) -> Result<Run, Over> {
    let mut out = [0u8; trace::TURN_BYTES];
    let next = run.answer_line(line, &mut out);
    edges.write(&out[..next.length])?;
    if next.good { Ok(next) } else { Err(Over) }
}

// Answers the lines of a case; the first is its name. What is not ended at its end is bad, and so is a beacon that is missing.
// The empty line, which is bad too, stands for either.
fn answer_lines(edges: &Edges<HostRuntime>, case: &[u8]) -> Result<(), Over> {
    let mut run = Run::new();
    let mut lines = case.split(|b| *b == b'\n');
    let not_ended = lines.next_back().unwrap_or(b"");
    for line in lines.skip(1) {
        run = answer(edges, run, line)?;
    }
    if !not_ended.is_empty() || run.session.missing != 0 {
        answer(edges, run, b"")?;
    }
    Ok(())
}

// Prints a case's name, and runs it. `yardlist_cases` goes through its cases alike from here on: one for both would be a crate more, which is handed a closure
// for the case, for a dozen lines.
fn run_case(edges: &Edges<HostRuntime>, case: &[u8]) -> Result<(), Failed> {
    edges.write(b"# ")?;
    edges.write(text::part(case, b'\n', 0))?;
    edges.write(b"\n")?;
    let _ = answer_lines(edges, case);
    Ok(())
}

// Runs the cases, up to a name that can't be printed.
fn run_all(edges: &Edges<HostRuntime>) -> Result<(), Failed> {
    let mut space = [0u8; 65536];
    let n = edges.read_full(&mut space)?;
    for case in space[..n].split(|b| *b == 0x1e) {
        run_case(edges, case)?;
    }
    Ok(())
}

fn main(rt: HostRuntime) {
    let edges = Edges {
        rt: &rt,
        program: b"nodetrace_cases",
    };
    let _ = run_all(&edges);
}
