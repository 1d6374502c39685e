// Requests, confirms and indications of the NLME, and the slots that hold an indication until it is taken.
#![tactic(auto)]

ghost use Rattle.std.specs.Prelude.{◌≡◌};
ghost use Rattle.management.specs.Signals.{no_signals, with_rejoin_response, with_timeout_response, with_leave_indication, with_status_indication};

pub mod frame;

use nib::{CapabilityInformation, ExtendedPanId, IeeeAddress, ShortAddress};

// The kinds of a join request, in the order of their numbers 0 to 3 (Zigbee Table 3-21).
#[derive(Clone, Copy)]
pub enum RejoinNetwork {
    // a join by association
    Association,
    // an orphan scan, which is not supported: InvalidRequest
    Orphan,
    // a rejoin by the NWK layer
    NwkRejoin,
    // a change of channel, which is not supported: InvalidRequest
    ChannelChange,
}

// A scan of the channels from `first` up to, and without, `past`.
#[derive(Clone, Copy)]
pub struct ScanRange {
    // the first channel
    pub first: u8,
    // the channel behind the last; a rejoin scans nothing where it is not above `first`
    pub past: u8,
    // the scan duration, as the radio takes it
    pub duration: u8,
}

// What a join asks for.
#[derive(Clone, Copy)]
pub struct NlmeJoinRequest {
    // the network; 0 for any network at a join, and for the remembered one at a rejoin
    pub extended_pan_id: ExtendedPanId,
    // by association or by rejoin
    pub rejoin_network: RejoinNetwork,
    // what the device says of itself; stored once the join begins
    pub capability_information: CapabilityInformation,
    // whether a rejoin request is sent secured
    pub security_enabled: bool,
    // the channels that a rejoin scans
    pub scan: ScanRange,
}

// How a join ended.
#[derive(Clone, Copy, Debug, PartialEq, Eq)]
pub enum NlmeJoinStatus {
    // the device has joined
    Success,
    // a kind that is not supported, a request that does not fit the state, or a rejoin that has nobody to ask
    InvalidRequest,
    // no candidate was found
    NotPermitted,
    // of the source; no decision gives it
    NoNetworks,
    // the last router asked has no room
    PanAtCapacity,
    // the last router asked denied access
    PanAccessDenied,
    // the radio failed, no response came, or one with another status
    MacError,
}

// The answer to a join: NLME-JOIN's confirm with the fields of the source's.
// No `Result`: in a failure too the owner is handed all of it, with the address 0xffff and the id and channel 0.
#[derive(Clone, Copy)]
pub struct NlmeJoinConfirm {
    // how the join ended
    pub status: NlmeJoinStatus,
    // the short address given to this device; 0xffff without success
    pub network_address: ShortAddress,
    // the network; 0 without success
    pub extended_pan_id: ExtendedPanId,
    // the parent's channel; 0 by the remembered parent, and without success
    pub channel: u8,
}

// The answer to a send. An enum of its own: a send can answer just these, and a `Result` with one error enum for all would list errors that it can't give.
#[derive(Clone, Copy, Debug, PartialEq, Eq)]
pub enum SendAnswer {
    // the frame was sent
    SendOk,
    // there is no parent: nothing was sent
    SendNotJoined,
    // the frame was not sent
    SendMacError,
    // the frame was not sent, and this failure is one too many: ParentLinkFailure is signalled
    SendParentLinkFailure,
}

// The answer to a poll or a receive, which can answer just these: an enum of its own, as a send has.
#[derive(Clone, Copy, Debug, PartialEq, Eq)]
pub enum PollAnswer {
    // a data frame came
    PollData,
    // no frame came, or one that is not for the owner
    PollNothing,
    // there is no parent: nobody was asked
    PollNotJoined,
    // the radio failed, or a receive brought nothing
    PollMacError,
    // a frame came that can't be decoded
    PollUndecodable,
}

// The answer to a negotiation, which can answer just these: an enum of its own, as a send has.
#[derive(Clone, Copy, Debug, PartialEq, Eq)]
pub enum NegotiationAnswer {
    // the parent agreed: the timeout is stored
    Negotiated,
    // the parent refused, or did not answer
    NotNegotiated,
    // there is no parent: nothing was sent
    NegotiationNotJoined,
    // the request was not sent
    NegotiationMacError,
}

// The answer to a keepalive, which can answer just these: an enum of its own, as a send has.
#[derive(Clone, Copy, Debug, PartialEq, Eq)]
pub enum KeepaliveAnswer {
    // the parent agreed: the timer is restarted
    KeepaliveOk,
    // it failed: ParentLinkFailure is signalled
    KeepaliveParentLinkFailure,
}

// Whose leave it is: this device's, for the parent's leave or an accepted request; a neighbour's, by its IEEE address;
// or a neighbour's by its short address, where its leave has no IEEE address.
#[derive(Clone, Copy)]
pub enum LeavingDevice {
    // this device
    ThisDevice,
    // a neighbour, by its IEEE address
    NeighborByIeee(IeeeAddress),
    // a neighbour whose leave has no IEEE address, by its short one
    NeighborByShort(ShortAddress),
}

// A device has left, and whether it is to rejoin.
#[derive(Clone, Copy)]
pub struct NlmeLeaveIndication {
    // whose leave it is
    pub device: LeavingDevice,
    // whether that device is to rejoin
    pub rejoin: bool,
}

// The only status is ParentLinkFailure; the address is the parent's, 0xffff where there is none.
#[derive(Clone, Copy)]
pub struct NlmeNwkStatusIndication {
    // the parent's short address; 0xffff where there is none
    pub network_address: ShortAddress,
}

// What a rejoin response says.
#[derive(Clone, Copy)]
pub struct RejoinResponse {
    // the short address that is given
    pub network_address: ShortAddress,
    // 0 success, 1 at capacity, 2 access denied
    pub status: u8,
}

// What a timeout response says.
#[derive(Clone, Copy)]
pub struct EndDeviceTimeoutResponse {
    // 0 success
    pub status: u8,
    // what keepalives the parent takes: bit 0 polls, bit 1 timeout requests
    pub parent_information: u8,
}

// What was received and is still to be taken: each slot keeps the newest value until it is taken, and is empty otherwise.
#[derive(Clone, Copy, Default)]
pub struct Signals {
    // read by a rejoin's try
    pub rejoin_response: Option<RejoinResponse>,
    // read by a negotiation or a keepalive
    pub timeout_response: Option<EndDeviceTimeoutResponse>,
    // for the owner, by `take_leave_indication`
    pub leave_indication: Option<NlmeLeaveIndication>,
    // for the owner, by `take_nwk_status_indication`
    pub nwk_status_indication: Option<NlmeNwkStatusIndication>,
}

impl Signals {
    // Every slot is empty.
    pub fn new() -> Signals
        ensures { result ≡ no_signals }
    {
        Signals::default()
    }

    // Each of these replaces the value of one slot, or empties it; the other three stay.
    // They are four: each is one line over another slot and type, and one function over all would take the slot by a closure, which is longer.
    pub fn with_rejoin_response(self, slot: Option<RejoinResponse>) -> Signals
        ensures { result ≡ with_rejoin_response slot self }
    {
        Signals {
            rejoin_response: slot,
            ..self
        }
    }

    // The slot of the timeout response replaced.
    pub fn with_timeout_response(self, slot: Option<EndDeviceTimeoutResponse>) -> Signals
        ensures { result ≡ with_timeout_response slot self }
    {
        Signals {
            timeout_response: slot,
            ..self
        }
    }

    // The slot of the leave indication replaced.
    pub fn with_leave_indication(self, slot: Option<NlmeLeaveIndication>) -> Signals
        ensures { result ≡ with_leave_indication slot self }
    {
        Signals {
            leave_indication: slot,
            ..self
        }
    }

    // The slot of the status indication replaced.
    pub fn with_status_indication(self, slot: Option<NlmeNwkStatusIndication>) -> Signals
        ensures { result ≡ with_status_indication slot self }
    {
        Signals {
            nwk_status_indication: slot,
            ..self
        }
    }
}
