// The way to use the library: a plug looks for networks, joins, sends, loses its parent and rejoins. A scripted radio stands in for a real one.
// An owner starts an operation, has the radio carry out what the node asks, and hands each outcome back, until the node says what came of it (`settle`).
// His timer interrupt has a record of its own, which it lends to each tick (`interrupt`). With the outcome of a scan, a poll or a receive goes the time by his
// clock: the table keeps when each neighbour was last heard, for the owner to read (`tell_last_heard`). No decision reads it.
#![tactic(auto)]

use discovery::mlme::{
    Address, MAX_PAN_DESCRIPTOR_SIZE, PanDescriptor, PanDescriptorList, StackProfile,
    SuperframeSpecification, ZigbeeBeacon,
};
use filter::{Edges, Failed};
use join::association::AssociationResponse;
use management::frame::{ReceivedFrame, Source};
use management::{
    EndDeviceTimeoutResponse, NegotiationAnswer, NlmeJoinConfirm, NlmeJoinRequest, NlmeJoinStatus,
    NlmeNwkStatusIndication, RejoinNetwork, RejoinResponse, ScanRange, SendAnswer,
};
use nib::{
    CapabilityInformation, ExtendedPanId, IeeeAddress, NeighborTable, Nib, PanId, ShortAddress,
    neighbor_table,
};
use node::{Answer, State};
use operation::{Note, RadioRequest, Step};
use std::process::ExitCode;
use supervision::parent_timer::ParentTimer;

// The plug: an end device on mains power that listens when idle and wants a short address.
const PLUG: u64 = 0x0011_2233_4455_6677;

const CAPABILITIES: u8 = 0x8c;

// The depot's network, and its two routers.
const NETWORK: u64 = 0xaa;

const NEAR: u16 = 0x1a2b;

const FAR: u16 = 0x3c4d;

const DEPTH_1: u16 = 0x8c22;

const DEPTH_2: u16 = 0x9422;

// The scripted radio. The near router can be switched off.

fn reaches(near_is_on: bool, router: ShortAddress) -> bool {
    router.0 == FAR || near_is_on && router.0 == NEAR
}

// A beacon. The stack profile field has room for routers and end devices, the router's depth, stack profile 2 and protocol version 2.
fn beacon(router: u16, stack_profile: u16) -> PanDescriptor {
    PanDescriptor {
        channel: 15,
        coord_pan_id: PanId(0x0011),
        coord_address: Address::Short(PanId(0x0011), ShortAddress(router)),
        superframe_spec: SuperframeSpecification {
            beacon_order: 15,
            superframe_order: 15,
            association_permit: true,
        },
        link_quality: 200,
        zigbee_beacon: ZigbeeBeacon {
            stack_profile: StackProfile(stack_profile),
            extended_pan_id: ExtendedPanId(NETWORK),
            update_id: 3,
        },
    }
}

fn beacons(near_is_on: bool) -> PanDescriptorList {
    let far = beacon(FAR, DEPTH_2);
    let mut descriptors = [far; MAX_PAN_DESCRIPTOR_SIZE];
    if near_is_on {
        descriptors[1] = beacon(NEAR, DEPTH_1);
        return PanDescriptorList {
            descriptors,
            count: 2,
        };
    }
    PanDescriptorList {
        descriptors,
        count: 1,
    }
}

// The near router is asked for a timeout, and grants it; it takes polls as keepalives. The far one is asked to take the plug back, and does so.
fn polled(router: ShortAddress) -> ReceivedFrame {
    let source = Source {
        address: router,
        ieee: None,
    };
    if router.0 == NEAR {
        let response = EndDeviceTimeoutResponse {
            status: 0,
            parent_information: 1,
        };
        return ReceivedFrame::TimeoutResponseCommand(source, response);
    }
    let response = RejoinResponse {
        network_address: ShortAddress(0x9abc),
        status: 0,
    };
    ReceivedFrame::RejoinResponseCommand(source, response)
}

// The radio carries out what the node asks, and the outcome is handed to the node, with the time at which it came where the node asks for that.
fn carry_out(state: State, request: RadioRequest, clock: u32, near_is_on: bool) -> Answer {
    match request {
        // beside the answer stands the confirm of a discovery, with the networks that were heard; this plug knows which one it wants
        RadioRequest::Scan(_) => state.scan_over(Ok(beacons(near_is_on)), clock).answer,
        RadioRequest::Associate(_) => state.association_over(Ok(AssociationResponse {
            status: 0,
            association_address: ShortAddress(0x5678),
            device_address: IeeeAddress(PLUG),
        })),
        RadioRequest::Transmit(transmission) => {
            state.transmission_over(reaches(near_is_on, transmission.address))
        }
        RadioRequest::Poll(_, router) => state.reception_over(Ok(Some(polled(router))), clock),
        RadioRequest::Receive => state.reception_over(Ok(None), clock),
    }
}

// What is printed goes through `edges`, which stand for standard output under the program's name. What can't be printed ends the program.

fn say_of(edges: &Edges<HostRuntime>, text: &[u8], address: ShortAddress) -> Result<(), Failed> {
    let mut digits = [0u8; 4];
    text::write_hex(&mut digits, 0, u64::from(address.0), 4);
    edges.write(text)?;
    edges.write(&digits)?;
    edges.write(b"\n")
}

fn tell_request(edges: &Edges<HostRuntime>, request: RadioRequest) -> Result<(), Failed> {
    match request {
        RadioRequest::Scan(_) => edges.write(b"  radio: scan\n"),
        RadioRequest::Associate(a) => say_of(edges, b"  radio: associate with ", a.address),
        RadioRequest::Transmit(t) => say_of(edges, b"  radio: transmit to ", t.address),
        RadioRequest::Poll(_, router) => say_of(edges, b"  radio: poll ", router),
        RadioRequest::Receive => edges.write(b"  radio: receive\n"),
    }
}

fn tell_joined(edges: &Edges<HostRuntime>, confirm: NlmeJoinConfirm) -> Result<(), Failed> {
    match confirm.status {
        NlmeJoinStatus::Success => say_of(edges, b"  joined as ", confirm.network_address),
        _ => edges.write(b"  not joined\n"),
    }
}

fn tell_sent(edges: &Edges<HostRuntime>, answer: SendAnswer) -> Result<(), Failed> {
    match answer {
        SendAnswer::SendOk => edges.write(b"  sent\n"),
        SendAnswer::SendParentLinkFailure => {
            edges.write(b"  not sent: the link to the parent has failed\n")
        }
        _ => edges.write(b"  not sent\n"),
    }
}

fn tell_negotiated(edges: &Edges<HostRuntime>, answer: NegotiationAnswer) -> Result<(), Failed> {
    match answer {
        NegotiationAnswer::Negotiated => edges.write(b"  a timeout is negotiated\n"),
        _ => edges.write(b"  no timeout is negotiated\n"),
    }
}

fn tell_tick(edges: &Edges<HostRuntime>, expired: bool) -> Result<(), Failed> {
    if expired {
        edges.write(b"  the timer has expired\n")
    } else {
        edges.write(b"  the timer has not expired\n")
    }
}

fn tell_status(
    edges: &Edges<HostRuntime>,
    indication: Option<NlmeNwkStatusIndication>,
) -> Result<(), Failed> {
    match indication {
        None => edges.write(b"  nothing\n"),
        Some(indication) => say_of(edges, b"  the parent is lost: ", indication.network_address),
    }
}

fn tell_step(edges: &Edges<HostRuntime>, step: Step) -> Result<(), Failed> {
    match step {
        Step::Refused(_) => edges.write(b"  turned down\n"),
        Step::Ask(request) => tell_request(edges, request),
        Step::Discovered => edges.write(b"  networks were heard\n"),
        Step::Joined(confirm) => tell_joined(edges, confirm),
        Step::Sent(answer) => tell_sent(edges, answer),
        Step::NegotiationOver(answer) => tell_negotiated(edges, answer),
        Step::Expired(expired) => tell_tick(edges, expired),
        Step::StatusTaken(indication) => tell_status(edges, indication),
        _ => edges.write(b"  something that this plug does not ask for\n"),
    }
}

// An owner who keeps more than this state (routes, groups, keys) resets that where `answer.reset` says so: the device has left its network for good.

// The note, which the radio obeys before it is asked; then the request, or what the operation came to.
fn tell(edges: &Edges<HostRuntime>, answer: Answer) -> Result<(), Failed> {
    match answer.note {
        None => {}
        Some(Note::SetChannel(_)) => edges.write(b"  radio: set channel\n")?,
        Some(Note::SetAddress(own)) => say_of(edges, b"  radio: set address ", own)?,
    }
    tell_step(edges, answer.step)
}

// What the owner keeps: the state, the record of his timer interrupt, and his clock, in seconds from when the plug was switched on.
#[derive(Clone, Copy)]
struct Plug {
    state: State,
    timer: ParentTimer,
    clock: u32,
}

// What a call leaves. The record counts in place of the state's own, so it is loaded anew: a join zeroes only the state's own, and an old record would count on
// and signal a failure that is none. `settle` does so once, at its end, since no interrupt comes within it here. Where one may, it is done after each outcome.
fn after(answer: Answer, clock: u32) -> Plug {
    Plug {
        state: answer.state,
        timer: answer.state.control.nlme.parent_timer,
        clock,
    }
}

// Carries requests out until the operation has come to its end. A proved loop has to end: a rejoin, the longest operation, does so after at most 698 outcomes
// (`rejoin_bound`), and the loop has more turns. Each request takes the radio a second: so the clock is past 0, which is read as a time that is not known, when
// it is first handed over.
fn settle(
    edges: &Edges<HostRuntime>,
    mut answer: Answer,
    mut clock: u32,
    near_is_on: bool,
) -> Result<Plug, Failed> {
    for _ in 0..u64::MAX {
        tell(edges, answer)?;
        let Step::Ask(request) = answer.step else {
            break;
        };
        clock = clock.saturating_add(1);
        answer = carry_out(answer.state, request, clock, near_is_on);
    }
    Ok(after(answer, clock))
}

// The timer interrupt: so many seconds have passed, which a tick counts in milliseconds. It may come between any two calls, also while an outcome is awaited.
// One that comes while a call is running is made after it.
fn interrupt(edges: &Edges<HostRuntime>, mut plug: Plug, elapsed: u32) -> Result<Plug, Failed> {
    edges.write(b"tick\n")?;
    plug.clock = plug.clock.saturating_add(elapsed);
    let elapsed_ms = elapsed.saturating_mul(1_000);
    let answer = lent_tick::tick_lent(&mut plug.timer, plug.state, elapsed_ms);
    tell(edges, answer)?;
    plug.state = answer.state;
    Ok(plug)
}

// When the parent was last heard, where that is known: a time of 0 is not.
fn parent_heard(table: &NeighborTable) -> Option<u32> {
    let parent = table.get(neighbor_table::parent_index(table))?;
    Some(parent.last_heard).filter(|time| *time != 0)
}

// How long ago the parent was last heard: in a scan, or by a frame that a poll or a receive brought. A transmission that it acknowledges does not count.
fn tell_last_heard(edges: &Edges<HostRuntime>, plug: Plug) -> Result<(), Failed> {
    let Some(time) = parent_heard(&plug.state.table) else {
        return edges.write(b"  it is not known when it was last heard\n");
    };
    let mut digits = [0u8; 10];
    let count = text::write_decimal(&mut digits, 0, plug.clock.saturating_sub(time));
    edges.write(b"  it was last heard ")?;
    edges.write(lists::in_use(&digits, count))?;
    edges.write(b" s ago\n")
}

fn request(kind: RejoinNetwork) -> NlmeJoinRequest {
    NlmeJoinRequest {
        extended_pan_id: ExtendedPanId(NETWORK),
        rejoin_network: kind,
        capability_information: CapabilityInformation(CAPABILITIES),
        security_enabled: true,
        scan: CHANNELS,
    }
}

const CHANNELS: ScanRange = ScanRange {
    first: 11,
    past: 27,
    duration: 3,
};

fn blank() -> State {
    let nib = Nib {
        capability_information: CapabilityInformation(CAPABILITIES),
        stack_profile: 1,
        ..Nib::new(IeeeAddress(PLUG))
    };
    State::new(nib, 41)
}

// Sends data to the coordinator.
fn send(edges: &Edges<HostRuntime>, plug: Plug, near_is_on: bool) -> Result<Plug, Failed> {
    edges.write(b"send\n")?;
    let secure = true;
    settle(
        edges,
        plug.state.send_data(ShortAddress(0), secure),
        plug.clock,
        near_is_on,
    )
}

fn join(
    edges: &Edges<HostRuntime>,
    plug: Plug,
    kind: RejoinNetwork,
    near_is_on: bool,
) -> Result<Plug, Failed> {
    settle(
        edges,
        plug.state.join(request(kind)),
        plug.clock,
        near_is_on,
    )
}

// Discovers, joins, negotiates a timeout and sends: from here on the parent's timer runs.
fn begin(edges: &Edges<HostRuntime>, state: State) -> Result<Plug, Failed> {
    let near_is_on = true;
    let clock = 0;
    edges.write(b"discovery\n")?;
    let plug = settle(edges, state.start_discovery(CHANNELS), clock, near_is_on)?;
    edges.write(b"join\n")?;
    let plug = join(edges, plug, RejoinNetwork::Association, near_is_on)?;
    edges.write(b"negotiation\n")?;
    let negotiated = plug.state.negotiate_end_device_timeout();
    let plug = settle(edges, negotiated, plug.clock, near_is_on)?;
    let plug = send(edges, plug, near_is_on)?;
    interrupt(edges, plug, HOUR)
}

// Goes through the day. With the near router off the third transmission that fails is one too many: the parent is lost, and the plug rejoins by the far router.
// The last tick signals nothing: the rejoin has forgotten the timeout of the old parent, and the record was loaded anew.
fn live(edges: &Edges<HostRuntime>, state: State) -> Result<(), Failed> {
    let plug = begin(edges, state)?;
    let near_is_on = false;
    edges.write(b"the near router is switched off\n")?;
    let plug = send(edges, plug, near_is_on)?;
    let plug = send(edges, plug, near_is_on)?;
    let plug = send(edges, plug, near_is_on)?;
    edges.write(b"status\n")?;
    let taken = plug.state.take_nwk_status_indication();
    let plug = settle(edges, taken, plug.clock, near_is_on)?;
    tell_last_heard(edges, plug)?;
    edges.write(b"rejoin\n")?;
    let plug = join(edges, plug, RejoinNetwork::NwkRejoin, near_is_on)?;
    let plug = send(edges, plug, near_is_on)?;
    interrupt(edges, plug, 6 * HOUR)?;
    Ok(())
}

// An hour in seconds. The timeout that is asked for is 256 minutes: one hour does not use it up, six would.
const HOUR: u32 = 3_600;

// What is printed if there is an argument.
const USAGE: &[u8] = b"Usage: example\n\
    \n\
    Shows how the library is used: a plug joins, loses its parent and rejoins over\n\
    a scripted radio. Its code, crates/example/src/main.rt, is there to be read.\n\
    \n\
    It reads nothing. It prints each operation that the plug's owner starts, what\n\
    the radio is asked, and what the operation came to.\n\
    \n\
    docs/NODETRACE.md has the calls one by one. Any argument prints this text.\n";

fn run(edges: &Edges<HostRuntime>) -> Result<(), Failed> {
    if edges.print_usage(edges.word_count(), USAGE)? {
        return Ok(());
    }
    live(edges, blank())
}

fn main(rt: HostRuntime) -> ExitCode {
    let edges = Edges {
        rt: &rt,
        program: b"example",
    };
    filter::status(run(&edges))
}
