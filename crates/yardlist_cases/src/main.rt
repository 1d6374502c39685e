// Runs the yard list on cases that stand in one input, parted by the byte 0x1e.
// A case is a line with its name, and then what is read. Its name and its answer are printed.
#![tactic(auto)]

use filter::{Edges, Failed};

// Prints a case's name and its answer. `nodetrace_cases` goes through its cases alike from here on: one for both would be a crate more, which is handed a
// closure for the case, for a dozen lines.
fn run(edges: &Edges<HostRuntime>, case: &[u8]) -> Result<(), Failed> {
    let name = text::part(case, b'\n', 0);
    let n = name.len() + 1;
    if case.len() < n {
        return Ok(());
    }
    let mut out = [0u8; yard_list::LIST_BYTES];
    let length = yard_list::yard_list(&case[n..], &mut out);
    edges.write(b"# ")?;
    edges.write(name)?;
    edges.write(b"\n")?;
    edges.write(&out[..length])
}

// Runs the cases, up to what can't be printed.
fn run_all(edges: &Edges<HostRuntime>) -> Result<(), Failed> {
    let mut space = [0u8; 32768];
    let n = edges.read_full(&mut space)?;
    for case in space[..n].split(|b| *b == 0x1e) {
        run(edges, case)?;
    }
    Ok(())
}

fn main(rt: HostRuntime) {
    let edges = Edges {
        rt: &rt,
        program: b"yardlist_cases",
    };
    let _ = run_all(&edges);
}
