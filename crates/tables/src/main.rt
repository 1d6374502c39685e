// Prints, for every byte, its link cost as an LQI, its capability bits, its timeout in seconds and milliseconds as an index, and what it means as the status of
// an association.
#![tactic(auto)]

use filter::{Edges, Failed};
use management::NlmeJoinStatus;
use nib::CapabilityInformation;
use std::process::ExitCode;

// What is printed if there is an argument.
const USAGE: &[u8] = b"Usage: tables\n\
    \n\
    It reads nothing, and prints the published tables: a header, then a line for\n\
    each byte from 0 to 255, with fields parted by tabs.\n\
    \n\
    byte                    the byte, in decimal\n\
    cost                    its link cost as an LQI\n\
    router .. allocate      its bits as capabilities, 0 or 1\n\
    seconds, milliseconds   the timeout that it stands for as an index, or -\n\
    association             what it means as the status of an association\n\
    \n\
    docs/SCOPE.md has the rules behind them. Any argument prints this text.\n";

fn print_number(edges: &Edges<HostRuntime>, n: u32) -> Result<(), Failed> {
    let mut digits = [0u8; 10];
    let count = text::write_decimal(&mut digits, 0, n);
    edges.write(&digits[..count])
}

fn print_field(edges: &Edges<HostRuntime>, n: u8) -> Result<(), Failed> {
    edges.write(b"\t")?;
    print_number(edges, u32::from(n))
}

fn print_flag(edges: &Edges<HostRuntime>, b: bool) -> Result<(), Failed> {
    print_field(edges, u8::from(b))
}

fn print_period(edges: &Edges<HostRuntime>, p: Option<u32>) -> Result<(), Failed> {
    edges.write(b"\t")?;
    match p {
        None => edges.write(b"-"),
        Some(n) => print_number(edges, n),
    }
}

fn print_association(edges: &Edges<HostRuntime>, status: u8) -> Result<(), Failed> {
    if status == 0 {
        return edges.write(b"\tSuccess");
    }
    match join::failed_status(status) {
        NlmeJoinStatus::PanAtCapacity => edges.write(b"\tPanAtCapacity"),
        NlmeJoinStatus::PanAccessDenied => edges.write(b"\tPanAccessDenied"),
        NlmeJoinStatus::MacError => edges.write(b"\tMacError"),
        _ => edges.write(b"\tanother"),
    }
}

fn print_row(edges: &Edges<HostRuntime>, byte: u8) -> Result<(), Failed> {
    let capability = CapabilityInformation(byte);
    print_number(edges, u32::from(byte))?;
    print_field(edges, nib::link_cost_from_lqi(byte))?;
    print_flag(edges, capability.device_type())?;
    print_flag(edges, capability.power_source())?;
    print_flag(edges, capability.receiver_on_when_idle())?;
    print_flag(edges, capability.security_capability())?;
    print_flag(edges, capability.allocate_address())?;
    print_period(edges, supervision::timeout_seconds(byte))?;
    print_period(edges, supervision::negotiated_timeout_ms(byte))?;
    print_association(edges, byte)?;
    edges.write(b"\n")
}

// Prints the tables, up to what can't be printed.
fn print_tables(edges: &Edges<HostRuntime>) -> Result<(), Failed> {
    edges.write(
        b"byte\tcost\trouter\tmains\treceiver\tsecurity\tallocate\tseconds\tmilliseconds\tassociation\n",
    )?;
    for byte in 0..=255 {
        print_row(edges, byte)?;
    }
    Ok(())
}

fn run(edges: &Edges<HostRuntime>) -> Result<(), Failed> {
    if edges.print_usage(edges.word_count(), USAGE)? {
        return Ok(());
    }
    print_tables(edges)
}

fn main(rt: HostRuntime) -> ExitCode {
    let edges = Edges {
        rt: &rt,
        program: b"tables",
    };
    filter::status(run(&edges))
}
