// The operation under way, requests to the radio, and what a decision says.
#![tactic(auto)]

ghost use Rattle.std.specs.Prelude.{◌≡◌};
ghost use Rattle.operation.specs.Operation.{refusal_number, idle_control, with_nlme, with_polls_left, in_phase, is_idle, decided, telling, asking, announcing_leave, ending, polled, polling, next_poll, is_discovered};
ghost use Rattle.operation.specs.declared.RadioRequest.TheVariants.{Transmit};

use discovery::mlme::MacCapabilityInformation;
use management::{
    KeepaliveAnswer, NegotiationAnswer, NlmeJoinConfirm, NlmeLeaveIndication,
    NlmeNwkStatusIndication, PollAnswer, ScanRange, SendAnswer,
};
use nib::{ExtendedPanId, NwkNeighbor, PanId, ShortAddress};
use nlme::received::LeaveAnnouncement;
use nlme::{Nlme, Transmission};

// What a timeout request is sent for.
#[derive(Clone, Copy)]
pub enum TimeoutFor {
    // `negotiate_end_device_timeout`: its answer says why it failed
    Negotiation,
    // `send_timeout_request_keepalive`: a failure, whatever the reason, signals ParentLinkFailure
    Keepalive,
}

// What a received frame is awaited for.
#[derive(Clone, Copy)]
pub enum ReceptionFor {
    // a rejoin's try: polls go on until its response, or until none is left
    RejoinResponse,
    // `poll`: it answers what came
    SinglePoll,
    // `receive`: it answers what came, and nothing is a radio error
    SingleReceive,
    // a negotiation or a keepalive: polls go on until its response, or until none is left
    TimeoutResponse(TimeoutFor),
}

// What a scan is for.
#[derive(Clone, Copy)]
pub enum ScanFor {
    // `start_discovery`: the table is made, and the confirm is answered
    Discovery,
    // a rejoin: the table is made, and its candidates are tried
    Rejoin,
}

// A leave that is being announced: what the poll that brought it was for, which goes on afterwards, and its rejoin bit.
#[derive(Clone, Copy)]
pub struct Leaving {
    // what the poll was for, which goes on once the leave is announced
    pub purpose: ReceptionFor,
    // whether the device is to rejoin; if not, it forgets its network
    pub rejoin: bool,
}

// What a transmission is for.
#[derive(Clone, Copy)]
pub enum TransmissionFor {
    // a rejoin's try
    RejoinRequest,
    // `send_data`
    Data,
    // a negotiation or a keepalive
    TimeoutRequest(TimeoutFor),
    // the announcement of this device's leave
    Leave(Leaving),
}

// What the operation under way awaits: nothing, where none is under way;
// or the outcome of a scan, of an association, of a transmission, or of a poll or a receive.
#[derive(Clone, Copy)]
pub enum Phase {
    // no operation is under way: an operation may be started
    Idle,
    // `scan_over` is awaited
    Scan(ScanFor),
    // `association_over` is awaited
    Association,
    // `transmission_over` is awaited
    Transmission(TransmissionFor),
    // `reception_over` is awaited
    Reception(ReceptionFor),
}

// The operation under way: what it awaits, and what a rejoin keeps of its request and of its try.
#[derive(Clone, Copy)]
pub struct Operation {
    // what is awaited
    pub phase: Phase,
    // the network to rejoin; 0 for any
    pub extended_pan_id: ExtendedPanId,
    // whether the rejoin request is sent secured
    pub security_enabled: bool,
    // the channels to scan after the remembered parent
    pub scan: ScanRange,
    // the scan has been asked for: candidates are tried, and not the remembered parent
    pub scan_requested: bool,
    // the candidate's channel, 0 by the remembered parent
    pub channel: u8,
    // how many polls for a response may still be made
    pub polls_left: u8,
}

// All of the state but the neighbour table and the candidates.
#[derive(Clone, Copy)]
pub struct Control {
    // the node's own part: attributes, timer, signals, failure pairs
    pub nlme: Nlme,
    // the operation under way
    pub operation: Operation,
}

// The request to associate with a candidate.
#[derive(Clone, Copy)]
pub struct AssociateRequest {
    // the candidate's channel
    pub channel: u8,
    // the candidate's PAN id
    pub pan_id: PanId,
    // the candidate's short address
    pub address: ShortAddress,
    // this device's capabilities, as the radio sends them
    pub capabilities: MacCapabilityInformation,
}

// What the radio is asked, with an outcome that is awaited.
#[derive(Clone, Copy)]
pub enum RadioRequest {
    // a scan of these channels; the outcome goes to `scan_over`
    Scan(ScanRange),
    // an association request to a candidate; the outcome goes to `association_over`
    Associate(AssociateRequest),
    // a frame to send; the outcome goes to `transmission_over`
    Transmit(Transmission),
    // a data request to this address in this PAN; what comes goes to `reception_over`
    Poll(PanId, ShortAddress),
    // one frame without a data request; what comes goes to `reception_over`
    Receive,
}

// What the radio is told without an outcome: the set-channel or set-address note (01, "Join request and confirm").
#[derive(Clone, Copy)]
pub enum Note {
    // tune to this channel before the request
    SetChannel(u8),
    // this device has this short address from now on
    SetAddress(ShortAddress),
}

// Why a call is turned down. Each refusal has a number.
#[derive(Clone, Copy, Debug, PartialEq, Eq)]
pub enum Refusal {
    // an operation is under way
    OperationUnderWay = 1,
    // no request awaits that outcome
    NotAwaited = 2,
    // a scan with more than 27 descriptors
    TooManyDescriptors = 3,
    // a scan with more than 16 short-addressed descriptors
    TooManyShortAddressed = 4,
    // a state with a count above 16, more than 20 polls left, or an association with an index past the table
    BadState = 5,
    // a lent buffer shorter than the 816 bytes of a page
    ShortPage = 6,
}

impl Refusal {
    // The number of a refusal. A method, and not `From<Refusal> for u8`: its name says at a call that the number is meant, which `into` would not.
    pub fn number(self) -> u8
        ensures { result ≡ refusal_number self }
    {
        self as u8
    }
}

// What a call answers.
#[derive(Clone, Copy)]
pub enum Step {
    // the call was turned down: the state is as handed in
    Refused(Refusal),
    // the radio is asked, and its outcome is awaited
    Ask(RadioRequest),
    // a discovery is over; the confirm stands beside the answer
    Discovered,
    // a discovery is over: the scan failed, and the table is as it was
    DiscoveryFailed,
    // a join or rejoin is over, with its confirm
    Joined(NlmeJoinConfirm),
    // a data send is over
    Sent(SendAnswer),
    // a poll or a receive is over
    Polled(PollAnswer),
    // a negotiation is over
    NegotiationOver(NegotiationAnswer),
    // a keepalive is over
    KeepaliveOver(KeepaliveAnswer),
    // a tick was made: whether the parent's timer has just reached 0
    Expired(bool),
    // the leave indication that stood in its slot
    LeaveTaken(Option<NlmeLeaveIndication>),
    // the status indication that stood in its slot
    StatusTaken(Option<NlmeNwkStatusIndication>),
    // the neighbour page stands in the lent buffer
    PageWritten,
    // what the call is for is done, and there is nothing to say of it
    Done,
}

// What a decision does with the candidates.
// Nothing; the next one is tried; the next one is made the parent and tried; or the one being tried becomes the parent.
// An enum, and not a closure that writes: the theorems read it (`moved` of `node/specs`), and `rt ci` refuses a function that makes a boxed closure and hands
// it out.
#[derive(Clone, Copy)]
pub enum Move {
    // nothing
    Stay,
    // the next one is tried
    TakeNext,
    // the next one is made the parent and tried
    AdoptNext,
    // the one being tried becomes the parent
    JoinTried,
}

// A decision sees no table and no index: it says what is to be written, and the write finds its own index.
#[derive(Clone, Copy)]
pub struct Decision {
    // the control part for the next call
    pub control: Control,
    // the candidate being tried is no longer a potential parent
    pub clear_potential_parent: bool,
    // what is done with the candidates
    pub candidate: Move,
    // what the radio is told without an outcome
    pub note: Option<Note>,
    // the request, confirm or answer
    pub step: Step,
    // 1 where the step is a poll, else 0
    pub polls_used: u8,
}

// The polls for a response: whom the next one asks, which is nobody once they are over, and the control part then.
#[derive(Clone, Copy)]
pub struct Polling {
    // whom the next poll asks; nobody once the polls are over
    pub parent: Option<NwkNeighbor>,
    // the control part then: one poll fewer is left, or none
    pub control: Control,
}

impl Control {
    // No operation is under way.
    pub fn new(nlme: Nlme) -> Control
        ensures { result ≡ idle_control nlme }
    {
        Control {
            nlme,
            operation: Operation {
                phase: Phase::Idle,
                extended_pan_id: ExtendedPanId(0),
                security_enabled: false,
                scan: ScanRange {
                    first: 0,
                    past: 0,
                    duration: 0,
                },
                scan_requested: false,
                channel: 0,
                polls_left: 0,
            },
        }
    }
}

// The control part with its nlme part replaced.
pub fn with_nlme(control: Control, nlme: Nlme) -> Control
    ensures { result ≡ with_nlme nlme control }
{
    Control { nlme, ..control }
}

// How many polls are left.
pub fn with_polls_left(mut control: Control, polls_left: u8) -> Control
    ensures { result ≡ with_polls_left polls_left control }
{
    control.operation.polls_left = polls_left;
    control
}

// The control part awaits something else.
pub fn in_phase(mut control: Control, phase: Phase) -> Control
    ensures { result ≡ in_phase phase control }
{
    control.operation.phase = phase;
    control
}

// Whether no operation is under way.
pub fn is_idle(phase: Phase) -> bool
    ensures { result ≡ is_idle phase }
{
    matches!(phase, Phase::Idle)
}

// A decision that uses no poll and leaves the candidate being tried a potential parent.
pub fn decided(control: Control, candidate: Move, note: Option<Note>, step: Step) -> Decision
    ensures { result ≡ decided candidate note step control }
{
    Decision {
        control,
        clear_potential_parent: false,
        candidate,
        note,
        step,
        polls_used: 0,
    }
}

// An answer that leaves the operation under way as it is.
pub fn telling(control: Control, step: Step) -> Decision
    ensures { result ≡ telling step control }
{
    decided(control, Move::Stay, None, step)
}

// A request to the radio, whose outcome is awaited.
pub fn asking(control: Control, phase: Phase, request: RadioRequest) -> Decision
    ensures { result ≡ asking phase request control }
{
    telling(in_phase(control, phase), Step::Ask(request))
}

// The operation is over, with its answer.
pub fn ending(control: Control, step: Step) -> Decision
    ensures { result ≡ ending step control }
{
    telling(in_phase(control, Phase::Idle), step)
}

// A frame is handed to the radio.
pub fn transmit(control: Control, phase: Phase, frame: Transmission) -> Decision
    ensures { result ≡ asking phase (Transmit frame) control }
{
    asking(control, phase, RadioRequest::Transmit(frame))
}

// A scan of some channels, for a purpose.
pub fn scan(control: Control, purpose: ScanFor, range: ScanRange) -> Decision
    ensures { result ≡ asking (Phase.Scan purpose) (RadioRequest.Scan range) control }
{
    asking(control, Phase::Scan(purpose), RadioRequest::Scan(range))
}

// The announcement of a leave that a poll has brought. What the poll was for goes on afterwards.
pub fn announce(
    control: Control,
    purpose: ReceptionFor,
    announcement: LeaveAnnouncement,
) -> Decision
    ensures { result ≡ announcing_leave purpose announcement control }
{
    let leaving = Leaving {
        purpose,
        rejoin: announcement.rejoin,
    };
    let phase = Phase::Transmission(TransmissionFor::Leave(leaving));
    transmit(control, phase, announcement.transmission)
}

// A poll of the parent, for a purpose: the only step that uses a poll.
pub fn poll_parent(control: Control, purpose: ReceptionFor, parent: NwkNeighbor) -> Decision
    ensures { result ≡ polled purpose parent control }
{
    let request = RadioRequest::Poll(control.nlme.nib.panid, parent.network_address);
    Decision {
        polls_used: 1,
        ..asking(control, Phase::Reception(purpose), request)
    }
}

// The next of the polls for a response. With no parent those left are used up at once.
#[tactic(auto, unfolding(crate::specs::Operation::polling))]
pub fn take_poll(control: Control, parent: Option<NwkNeighbor>) -> Polling
    ensures { result ≡ polling parent control }
{
    let left = control.operation.polls_left;
    match parent {
        None => Polling {
            parent,
            control: with_polls_left(control, 0),
        },
        Some(_) if left == 0 => Polling {
            parent: None,
            control,
        },
        Some(_) => Polling {
            parent,
            control: with_polls_left(control, left - 1),
        },
    }
}

// The next of the polls for a response, or the control part once they are over, for what follows then.
#[tactic(auto, unfolding(crate::specs::Operation::next_poll))]
pub fn next_poll(
    control: Control,
    purpose: ReceptionFor,
    parent: Option<NwkNeighbor>,
) -> Result<Decision, Control>
    ensures { result ≡ next_poll purpose parent control }
{
    let Polling { parent, control } = take_poll(control, parent);
    match parent {
        Some(parent) => Ok(poll_parent(control, purpose, parent)),
        None => Err(control),
    }
}

// Whether a step is the end of a discovery that has heard.
pub fn is_discovered(step: Step) -> bool
    ensures { result ≡ is_discovered step }
{
    matches!(step, Step::Discovered)
}
