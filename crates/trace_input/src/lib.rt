// What a line of a trace says: the arguments of a call, from the numbers of the line.
#![tactic(auto)]

ghost use Rattle.std.specs.Prelude.{◌≡◌, ◌<◌};
ghost use Rattle.discovery.specs.declared.mlme.Address.TheVariants.{Short, Extended};
ghost use Rattle.trace_input.specs.TraceInput.{nib_of, node_of, device_type_of, entry_of, entry_with, failure_of, range_from, rejoin_network_of, join_request_of, stack_profile_of, beacon_of, bits8, bits16, bits32, flag_at, extended_pan_id_at, pan_id_at, short_at, ieee_at, capabilities_at, association_of, source_ieee, source_of, rejoin_response_of, timeout_response_of, leave_options_of, frame_call, call_of};

use discovery::mlme::{
    Address, MacError, PanDescriptor, StackProfile, SuperframeSpecification, ZigbeeBeacon,
};
use join::association::AssociationResponse;
use management::frame::{LeaveOptions, ReceivedFrame, Source};
use management::{
    EndDeviceTimeoutResponse, NlmeJoinRequest, RejoinNetwork, RejoinResponse, ScanRange,
};
use nib::{
    CapabilityInformation, DeviceType, ExtendedPanId, IeeeAddress, Nib, NwkNeighbor, PanId,
    ShortAddress,
};
use supervision::TransmitFailure;
use trace_lines::{InputKind, InputLine};

// What a `node` line gives.
#[derive(Clone, Copy)]
pub struct NodeFields {
    // the attributes
    pub nib: Nib,
    // the last sequence number used
    pub nwk_seq: u8,
    // the index of a timeout request that awaits its response
    pub pending_timeout_request: u8,
    // the milliseconds that the parent's timer has left
    pub remaining_ms: u32,
}

// What a line of the input says.
#[derive(Clone, Copy)]
pub enum TraceCall {
    // `node`: a state begins
    Node(NodeFields),
    // `e`: a neighbour entry more
    Entry(NwkNeighbor),
    // `f`: a failure pair more
    Failure(TransmitFailure),
    // `discovery`
    Discovery(ScanRange),
    // `join`
    Join(NlmeJoinRequest),
    // `send`
    Send {
        // the short address that the data is for
        destination: ShortAddress,
        // whether it is sent secured
        secure: bool,
    },
    // `poll`
    Poll,
    // `receive`
    Receive,
    // `negotiate`
    Negotiate,
    // `keepalive`
    Keepalive,
    // how many beacons follow
    Scan(u32),
    // `b`: a scan's next beacon
    Beacon(PanDescriptor),
    // `scanfail`
    ScanFailed,
    // `associate`, `associatefail`
    Association(Result<AssociationResponse, MacError>),
    // `sent`, `sendfail`: whether the frame was sent
    Transmission(bool),
    // `nodata`, `pollfail`, or a frame
    Reception(Result<Option<ReceivedFrame>, MacError>),
    // `tick`: the milliseconds since the last one
    Tick(u32),
    // `takeleave`
    TakeLeave,
    // `takestatus`
    TakeStatus,
    // `candidates`
    Choose {
        // the network
        extended_pan_id: ExtendedPanId,
        // whether room for a router is wanted, and not for an end device
        join_as_router: bool,
        // whether a candidate has to permit joining
        require_permit_joining: bool,
    },
    // `state`
    PrintState,
    // the length of the lent buffer
    Page(u16),
    // `refresh`
    Refresh,
    // `h`: the seconds at which the last entry was heard
    Heard(u32),
    // `clock`: the caller's clock in seconds, from here on
    Clock(u32),
    // `lastheard`
    PrintLastHeard,
}

// Numbers of a line, each cut to its type: the fields of a line that was read fit their types. `stack_profile_of` alone cuts its parts itself.
// The line and the place are two parameters, and each contract says how far a place may go: the place is a number that stands in the call.

fn bits8(line: InputLine, k: usize) -> u8
    requires { k < 20 }
    ensures { result ≡ bits8 k line }
{
    (line.numbers[k] % 256) as u8
}

fn bits16(line: InputLine, k: usize) -> u16
    requires { k < 20 }
    ensures { result ≡ bits16 k line }
{
    (line.numbers[k] % 65536) as u16
}

fn bits32(line: InputLine, k: usize) -> u32
    requires { k < 20 }
    ensures { result ≡ bits32 k line }
{
    (line.numbers[k] % 4294967296) as u32
}

fn flag_at(line: InputLine, k: usize) -> bool
    requires { k < 20 }
    ensures { result ≡ flag_at k line }
{
    line.numbers[k] == 1
}

fn short_at(line: InputLine, k: usize) -> ShortAddress
    requires { k < 20 }
    ensures { result ≡ short_at k line }
{
    ShortAddress(bits16(line, k))
}

fn pan_id_at(line: InputLine, k: usize) -> PanId
    requires { k < 20 }
    ensures { result ≡ pan_id_at k line }
{
    PanId(bits16(line, k))
}

fn ieee_at(line: InputLine, k: usize) -> IeeeAddress
    requires { k < 20 }
    ensures { result ≡ ieee_at k line }
{
    IeeeAddress(line.numbers[k])
}

fn extended_pan_id_at(line: InputLine, k: usize) -> ExtendedPanId
    requires { k < 20 }
    ensures { result ≡ extended_pan_id_at k line }
{
    ExtendedPanId(line.numbers[k])
}

fn capabilities_at(line: InputLine, k: usize) -> CapabilityInformation
    requires { k < 20 }
    ensures { result ≡ capabilities_at k line }
{
    CapabilityInformation(bits8(line, k))
}

// Arguments of calls.

// No `From`, here and in `rejoin_network_of`, which would stand beside the type: the number is that of a trace's line, which only traces know.
#[tactic(auto, unfolding(crate::specs::TraceInput::device_type_of))]
fn device_type_of(n: u8) -> DeviceType
    ensures { result ≡ device_type_of n }
{
    match n {
        0 => DeviceType::Coordinator,
        1 => DeviceType::Router,
        2 => DeviceType::EndDevice,
        _ => DeviceType::Invalid(n),
    }
}

fn entry_with(line: InputLine, device_type: DeviceType) -> NwkNeighbor
    ensures { result ≡ entry_with device_type line }
{
    NwkNeighbor {
        extended_address: ieee_at(line, 1),
        network_address: short_at(line, 2),
        device_type,
        rx_on_when_idle: flag_at(line, 4),
        end_device_configuration: bits16(line, 5),
        relationship: bits8(line, 6),
        lqi: bits8(line, 7),
        outgoing_cost: bits8(line, 8),
        age: bits8(line, 9),
        keepalive_received: flag_at(line, 10),
        extended_pan_id: extended_pan_id_at(line, 11),
        logical_channel: bits8(line, 12),
        depth: bits8(line, 13),
        permit_joining: flag_at(line, 14),
        potential_parent: bits8(line, 15),
        router_capacity: flag_at(line, 16),
        end_device_capacity: flag_at(line, 17),
        update_id: bits8(line, 18),
        pan_id: pan_id_at(line, 19),
        last_heard: 0,
    }
}

fn entry_of(line: InputLine) -> NwkNeighbor
    ensures { result ≡ entry_of line }
{
    entry_with(line, device_type_of(bits8(line, 3)))
}

fn failure_of(line: InputLine) -> TransmitFailure
    ensures { result ≡ failure_of line }
{
    TransmitFailure {
        address: short_at(line, 1),
        count: bits8(line, 2),
    }
}

fn nib_of(line: InputLine) -> Nib
    ensures { result ≡ nib_of line }
{
    Nib {
        network_address: short_at(line, 1),
        ieee_address: ieee_at(line, 2),
        extended_panid: extended_pan_id_at(line, 3),
        panid: pan_id_at(line, 4),
        update_id: bits8(line, 5),
        capability_information: capabilities_at(line, 6),
        stack_profile: bits8(line, 7),
        parent_information: bits8(line, 8),
        end_device_timeout: bits8(line, 9),
        end_device_timeout_default: bits8(line, 10),
        leave_request_allowed: flag_at(line, 11),
    }
}

fn node_of(line: InputLine) -> NodeFields
    ensures { result ≡ node_of line }
{
    NodeFields {
        nib: nib_of(line),
        nwk_seq: bits8(line, 12),
        pending_timeout_request: bits8(line, 13),
        remaining_ms: bits32(line, 14),
    }
}

fn range_from(line: InputLine, k: usize) -> ScanRange
    requires { k < 18 }
    ensures { result ≡ range_from k line }
{
    ScanRange {
        first: bits8(line, k),
        past: bits8(line, k + 1),
        duration: bits8(line, k + 2),
    }
}

#[tactic(auto, unfolding(crate::specs::TraceInput::rejoin_network_of))]
fn rejoin_network_of(n: u64) -> RejoinNetwork
    ensures { result ≡ rejoin_network_of n }
{
    match n {
        0 => RejoinNetwork::Association,
        1 => RejoinNetwork::Orphan,
        2 => RejoinNetwork::NwkRejoin,
        _ => RejoinNetwork::ChannelChange,
    }
}

fn join_request_of(line: InputLine) -> NlmeJoinRequest
    ensures { result ≡ join_request_of line }
{
    NlmeJoinRequest {
        extended_pan_id: extended_pan_id_at(line, 2),
        rejoin_network: rejoin_network_of(line.numbers[1]),
        capability_information: capabilities_at(line, 3),
        security_enabled: flag_at(line, 4),
        scan: range_from(line, 5),
    }
}

// The stack profile field of a beacon: stack profile, protocol version, router capacity, depth, end device capacity.
fn stack_profile_of(line: InputLine) -> StackProfile
    ensures { result ≡ stack_profile_of line }
{
    let n = line.numbers;
    let versions = n[12] % 16 + n[13] % 16 * 16;
    let packed = versions + n[7] % 2 * 1024 + n[9] % 16 * 2048 + n[8] % 2 * 32768;
    StackProfile(packed as u16)
}

fn beacon_of(line: InputLine, coord_address: Address) -> PanDescriptor
    ensures { result ≡ beacon_of coord_address line }
{
    PanDescriptor {
        channel: bits8(line, 1),
        coord_pan_id: pan_id_at(line, 2),
        coord_address,
        superframe_spec: SuperframeSpecification {
            beacon_order: bits8(line, 14),
            superframe_order: bits8(line, 15),
            association_permit: flag_at(line, 6),
        },
        link_quality: bits8(line, 11),
        zigbee_beacon: ZigbeeBeacon {
            stack_profile: stack_profile_of(line),
            extended_pan_id: extended_pan_id_at(line, 5),
            update_id: bits8(line, 10),
        },
    }
}

// One line, as `extended_sender` is over another variant.
fn short_sender(line: InputLine) -> Address
    ensures { result ≡ Short (pan_id_at 2 line) (short_at 4 line) }
{
    Address::Short(pan_id_at(line, 2), short_at(line, 4))
}

fn extended_sender(line: InputLine) -> Address
    ensures { result ≡ Extended (pan_id_at 2 line) (ieee_at 4 line) }
{
    Address::Extended(pan_id_at(line, 2), ieee_at(line, 4))
}

fn association_of(line: InputLine) -> AssociationResponse
    ensures { result ≡ association_of line }
{
    AssociationResponse {
        status: bits8(line, 1),
        association_address: short_at(line, 2),
        device_address: ieee_at(line, 3),
    }
}

fn source_ieee(line: InputLine) -> Option<IeeeAddress>
    ensures { result ≡ source_ieee line }
{
    if line.dash {
        return None;
    }
    Some(ieee_at(line, 2))
}

fn source_of(line: InputLine) -> Source
    ensures { result ≡ source_of line }
{
    Source {
        address: short_at(line, 1),
        ieee: source_ieee(line),
    }
}

fn rejoin_response_of(line: InputLine) -> RejoinResponse
    ensures { result ≡ rejoin_response_of line }
{
    RejoinResponse {
        network_address: short_at(line, 3),
        status: bits8(line, 4),
    }
}

fn timeout_response_of(line: InputLine) -> EndDeviceTimeoutResponse
    ensures { result ≡ timeout_response_of line }
{
    EndDeviceTimeoutResponse {
        status: bits8(line, 3),
        parent_information: bits8(line, 4),
    }
}

fn leave_options_of(line: InputLine) -> LeaveOptions
    ensures { result ≡ leave_options_of line }
{
    LeaveOptions {
        request: flag_at(line, 4),
        rejoin: flag_at(line, 5),
        remove_children: flag_at(line, 6),
    }
}

fn frame_call(frame: ReceivedFrame) -> TraceCall
    ensures { result ≡ frame_call frame }
{
    TraceCall::Reception(Ok(Some(frame)))
}

// What a line of the input says.
pub fn call_of(line: InputLine) -> TraceCall
    ensures { result ≡ call_of line }
{
    match line.kind {
        InputKind::Entry => TraceCall::Entry(entry_of(line)),
        InputKind::ShortBeacon => TraceCall::Beacon(beacon_of(line, short_sender(line))),
        InputKind::ExtendedBeacon => TraceCall::Beacon(beacon_of(line, extended_sender(line))),
        InputKind::NoData => TraceCall::Reception(Ok(None)),
        InputKind::Sent => TraceCall::Transmission(true),
        InputKind::Tick => TraceCall::Tick(bits32(line, 1)),
        InputKind::Node => TraceCall::Node(node_of(line)),
        InputKind::Scan => TraceCall::Scan(bits32(line, 1)),
        InputKind::SendFailed => TraceCall::Transmission(false),
        InputKind::ScanFailed => TraceCall::ScanFailed,
        InputKind::PollFailed => TraceCall::Reception(Err(MacError)),
        InputKind::Associated => TraceCall::Association(Ok(association_of(line))),
        InputKind::AssociateFailed => TraceCall::Association(Err(MacError)),
        InputKind::Undecodable => frame_call(ReceivedFrame::Undecodable),
        InputKind::Data => frame_call(ReceivedFrame::Data(source_of(line))),
        InputKind::RejoinResponse => frame_call(ReceivedFrame::RejoinResponseCommand(
            source_of(line),
            rejoin_response_of(line),
        )),
        InputKind::TimeoutResponse => frame_call(ReceivedFrame::TimeoutResponseCommand(
            source_of(line),
            timeout_response_of(line),
        )),
        InputKind::Leave => frame_call(ReceivedFrame::LeaveCommand(
            source_of(line),
            short_at(line, 3),
            leave_options_of(line),
        )),
        InputKind::Command => frame_call(ReceivedFrame::OtherCommand(source_of(line))),
        InputKind::OtherFrame => frame_call(ReceivedFrame::OtherFrame),
        InputKind::Discovery => TraceCall::Discovery(range_from(line, 1)),
        InputKind::Join => TraceCall::Join(join_request_of(line)),
        InputKind::Send => TraceCall::Send {
            destination: short_at(line, 1),
            secure: flag_at(line, 2),
        },
        InputKind::Poll => TraceCall::Poll,
        InputKind::Receive => TraceCall::Receive,
        InputKind::Negotiate => TraceCall::Negotiate,
        InputKind::Keepalive => TraceCall::Keepalive,
        InputKind::TakeLeave => TraceCall::TakeLeave,
        InputKind::TakeStatus => TraceCall::TakeStatus,
        InputKind::Candidates => TraceCall::Choose {
            extended_pan_id: extended_pan_id_at(line, 1),
            join_as_router: flag_at(line, 2),
            require_permit_joining: flag_at(line, 3),
        },
        InputKind::State => TraceCall::PrintState,
        InputKind::Pair => TraceCall::Failure(failure_of(line)),
        InputKind::Page => TraceCall::Page(bits16(line, 1)),
        InputKind::Refresh => TraceCall::Refresh,
        InputKind::Heard => TraceCall::Heard(bits32(line, 1)),
        InputKind::Clock => TraceCall::Clock(bits32(line, 1)),
        InputKind::LastHeard => TraceCall::PrintLastHeard,
    }
}
