// Reads a request and neighbour entries from standard input and prints the candidates for a parent.
#![tactic(auto)]

use filter::{Edges, Failed};
use std::process::ExitCode;

// What is printed if there is an argument.
const USAGE: &[u8] = b"Usage: yardlist < YARD\n\
    \n\
    Tells which routers of a yard a plug would try as its parent, and in which\n\
    order.\n\
    \n\
    It reads standard input: a line that begins with the word request, then at\n\
    most 16 lines that begin with n, one for each neighbour that was heard. Fields\n\
    are parted by one tab, and each line is ended by a line feed.\n\
    \n\
    It prints a header, then a line for each candidate, in the order in which they\n\
    are tried: place, index, address, channel, depth. If a line is not of the\n\
    format, it prints that line's number and nothing else: bad, a tab, the number.\n\
    \n\
    docs/YARDLIST.md has the format and an example. Any argument prints this text.\n";

fn print_list(edges: &Edges<HostRuntime>, input: &[u8]) -> Result<(), Failed> {
    let mut out = [0u8; yard_list::LIST_BYTES];
    let length = yard_list::yard_list(input, &mut out);
    edges.write(&out[..length])
}

// The first 2,048 bytes are enough: `cut-is-enough` of yard_list says that the list of a longer input is theirs. A good input has at most 1,089.
fn run(edges: &Edges<HostRuntime>) -> Result<(), Failed> {
    if edges.print_usage(edges.word_count(), USAGE)? {
        return Ok(());
    }
    let mut input = [0u8; 2048];
    let n = edges.read_full(&mut input)?;
    print_list(edges, &input[..n])
}

fn main(rt: HostRuntime) -> ExitCode {
    let edges = Edges {
        rt: &rt,
        program: b"yardlist",
    };
    filter::status(run(&edges))
}
