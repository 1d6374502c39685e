// Reads neighbour lines with a last-heard time of 0 from standard input and prints them without it.
#![tactic(auto)]

use filter::{Edges, Failed};
use old_lines::{Direction, LINE_BYTES, Moving};
use std::process::ExitCode;

// What is printed if there is an argument.
const USAGE: &[u8] = b"Usage: moveback < NEW\n\
    \n\
    Takes the last-heard time off neighbour lines, where it is 0.\n\
    \n\
    It reads standard input: any number of lines that begin with n and have\n\
    thirteen fields. Fields are parted by one tab, and each line is ended by a line\n\
    feed.\n\
    \n\
    It prints each line without its thirteenth field. If a line is not of the\n\
    format, or was last heard at another time than 0, it prints bad, a tab and the\n\
    line's number, and ends.\n\
    \n\
    docs/YARDLIST.md has the format and an example. Any argument prints this text.\n";

fn run(edges: &Edges<HostRuntime>) -> Result<(), Failed> {
    if edges.print_usage(edges.word_count(), USAGE)? {
        return Ok(());
    }
    let mut moving = Moving {
        edges,
        direction: Direction::Back,
        number: 0,
    };
    line_filter::answer_input(edges, &mut moving, &mut [0u8; LINE_BYTES])
}

fn main(rt: HostRuntime) -> ExitCode {
    let edges = Edges {
        rt: &rt,
        program: b"moveback",
    };
    filter::status(run(&edges))
}
