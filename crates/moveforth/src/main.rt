// Reads neighbour lines without a last-heard time from standard input and prints them with one.
#![tactic(auto)]

use filter::{Edges, Failed};
use old_lines::{Direction, LINE_BYTES, Moving};
use std::process::ExitCode;

// What is printed if there is an argument.
const USAGE: &[u8] = b"Usage: moveforth < OLD\n\
    \n\
    Gives old neighbour lines a last-heard time of 0, which means unknown.\n\
    \n\
    It reads standard input: any number of lines that begin with n and have twelve\n\
    fields. Fields are parted by one tab, and each line is ended by a line feed.\n\
    \n\
    It prints each line with a thirteenth field, 0. If a line is not of the format,\n\
    it prints bad, a tab and the line's number, and ends.\n\
    \n\
    docs/YARDLIST.md has the format and an example. Any argument prints this text.\n";

fn run(edges: &Edges<HostRuntime>) -> Result<(), Failed> {
    if edges.print_usage(edges.word_count(), USAGE)? {
        return Ok(());
    }
    let mut moving = Moving {
        edges,
        direction: Direction::Forth,
        number: 0,
    };
    line_filter::answer_input(edges, &mut moving, &mut [0u8; LINE_BYTES])
}

fn main(rt: HostRuntime) -> ExitCode {
    let edges = Edges {
        rt: &rt,
        program: b"moveforth",
    };
    filter::status(run(&edges))
}
