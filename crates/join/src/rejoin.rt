// The rejoin: its start, its tries, and what follows the send and the polls of each.
ghost use Rattle.std.specs.Prelude.{◌≡◌};
ghost use Rattle.nlme.specs.Nlme.{seq_used};
ghost use Rattle.operation.specs.Operation.{with_nlme, with_polls, awaiting, in_phase, poll_on};
ghost use Rattle.join.specs.Rejoin.{invalid, resolved, operation_for, no_response, rejoin_request, trying, scan_or_end, try_remembered, begun, rejoin_started, adopting, try_next, try_failed, remembering, rejoined, responded, try_goes_on, request_sent};

use management::frame::SentCommand;
use management::{NlmeJoinConfirm, NlmeJoinRequest, NlmeJoinStatus, RejoinResponse};
use nib::{ExtendedPanId, NwkNeighbor, neighbor_table};
use nlme::Nlme;
use operation::{
    Control, Decision, Move, Note, Operation, Phase, RadioRequest, ReceptionFor, ScanFor, Step,
    TransmissionFor,
};

// The polls of one try.
pub const REJOIN_RESPONSE_POLL_RETRIES: u8 = 20;

// Whether the answer is InvalidRequest: with no address of this device's own, or for another network than the remembered one.
#[tactic(auto, unfolding(crate::specs::Rejoin::invalid))]
fn is_invalid(nlme: Nlme, request: NlmeJoinRequest) -> bool
    ensures { result ≡ invalid request nlme }
{
    let own = nlme.nib.network_address;
    let remembered = nlme.nib.extended_panid;
    let requested = request.extended_pan_id;
    own == nib::NWK_UNASSIGNED_ADDRESS
        || remembered.0 != 0 && requested.0 != 0 && remembered != requested
}

// The network to rejoin.
fn network_of(nlme: Nlme, request: NlmeJoinRequest) -> ExtendedPanId
    ensures { result ≡ resolved request nlme }
{
    if request.extended_pan_id.0 == 0 {
        nlme.nib.extended_panid
    } else {
        request.extended_pan_id
    }
}

// What the rejoin keeps of its request.
fn operation_for(nlme: Nlme, request: NlmeJoinRequest) -> Operation
    ensures { result ≡ operation_for request nlme }
{
    Operation {
        phase: Phase::Idle,
        extended_pan_id: network_of(nlme, request),
        security_enabled: request.security_enabled,
        scan: request.scan,
        scan_requested: false,
        channel: 0,
        polls_left: REJOIN_RESPONSE_POLL_RETRIES,
    }
}

// The slot of the rejoin response is emptied.
// One line, as `without_timeout_response` of `exchange` is over another type: one function for both would be longer.
fn without_response(mut nlme: Nlme) -> Nlme
    ensures { result ≡ no_response nlme }
{
    nlme.signals.rejoin_response = None;
    nlme
}

// The rejoin request to an entry.
fn rejoin_request(control: Control, parent: NwkNeighbor) -> RadioRequest
    ensures { result ≡ rejoin_request parent control }
{
    let ieee = neighbor_table::known_ieee(Some(parent));
    let secure = control.operation.security_enabled;
    let command = SentCommand::RejoinRequest(control.nlme.nib.capability_information);
    RadioRequest::Transmit(
        control
            .nlme
            .command_to(parent.network_address, ieee, secure, command),
    )
}

// The control part of a try that begins.
fn ready(mut control: Control) -> Control
    ensures { result ≡ record { nlme = no_response (seq_used control.nlme); operation = with_polls 20 (awaiting (Phase.Transmission TransmissionFor.RejoinRequest) control.operation) } }
{
    control = operation::in_phase(control, Phase::Transmission(TransmissionFor::RejoinRequest));
    control = operation::with_polls_left(control, REJOIN_RESPONSE_POLL_RETRIES);
    operation::with_nlme(control, without_response(control.nlme.use_nwk_seq()))
}

// A try begins: the request is sent to an entry.
#[tactic(auto, unfolding(crate::specs::Rejoin::trying))]
fn start_try(control: Control, candidate: Move, note: Option<Note>, parent: NwkNeighbor) -> Decision
    ensures { result ≡ trying candidate note parent control }
{
    let request = rejoin_request(control, parent);
    operation::decided(ready(control), candidate, note, Step::Ask(request))
}

// After the remembered parent: the scan, or the end where no channel is asked for.
#[tactic(auto, unfolding(crate::specs::Rejoin::scan_or_end))]
fn scan_or_end(mut control: Control, status: NlmeJoinStatus) -> Decision
    ensures { result ≡ scan_or_end status control }
{
    let range = control.operation.scan;
    if range.past <= range.first {
        return crate::failing(control, status);
    }
    control.operation.scan_requested = true;
    operation::scan(control, ScanFor::Rejoin, range)
}

// The remembered parent comes first.
#[tactic(auto, unfolding(crate::specs::Rejoin::try_remembered))]
fn try_remembered(control: Control, parent: Option<NwkNeighbor>) -> Decision
    ensures { result ≡ try_remembered parent control }
{
    match parent {
        None => scan_or_end(control, NlmeJoinStatus::InvalidRequest),
        Some(parent) => start_try(control, Move::Stay, None, parent),
    }
}

// The control part of a rejoin that begins.
fn begin_rejoin(control: Control, request: NlmeJoinRequest) -> Control
    ensures { result ≡ begun request control }
{
    let reset = crate::reset_negotiation(control);
    Control {
        operation: operation_for(control.nlme, request),
        ..crate::store_capabilities(reset, request.capability_information)
    }
}

// The start of a rejoin.
// The control part and what was seen are parameters here and below, and no struct: they come from the state and the table, and are read one by one at once.
#[tactic(auto, unfolding(crate::specs::Rejoin::rejoin_started))]
pub fn start_rejoin(
    control: Control,
    request: NlmeJoinRequest,
    parent: Option<NwkNeighbor>,
) -> Decision
    ensures { result ≡ rejoin_started request parent control }
{
    if is_invalid(control.nlme, request) {
        return crate::failing(control, NlmeJoinStatus::InvalidRequest);
    }
    try_remembered(begin_rejoin(control, request), parent)
}

// The control part once a candidate is the parent.
fn adopt(mut control: Control, entry: NwkNeighbor) -> Control
    ensures { result ≡ adopting entry control }
{
    control.nlme.nib.panid = entry.pan_id;
    control.nlme.nib.update_id = entry.update_id;
    control.operation.channel = entry.logical_channel;
    control
}

// The next candidate is tried; where there is none, the rejoin ends with a status.
#[tactic(auto, unfolding(crate::specs::Rejoin::try_next, crate::specs::Rejoin::try_candidate))]
pub fn try_next(control: Control, status: NlmeJoinStatus, next: Option<NwkNeighbor>) -> Decision
    ensures { result ≡ try_next status next control }
{
    match next {
        None => crate::failing(control, status),
        Some(entry) => {
            let note = Some(Note::SetChannel(entry.logical_channel));
            start_try(adopt(control, entry), Move::AdoptNext, note, entry)
        }
    }
}

// A try has failed: the next candidate, or the scan after the remembered parent.
#[tactic(auto, unfolding(crate::specs::Rejoin::try_failed))]
fn fail_try(control: Control, status: NlmeJoinStatus, next: Option<NwkNeighbor>) -> Decision
    ensures { result ≡ try_failed status next control }
{
    if control.operation.scan_requested {
        return try_next(control, status, next);
    }
    scan_or_end(control, status)
}

// The control part of a rejoin that has succeeded: the network is remembered, where it has an id.
fn end_rejoin(mut control: Control) -> Control
    ensures { result ≡ in_phase Phase.Idle (with_nlme (remembering control.operation.extended_pan_id control.nlme) control) }
{
    let network = control.operation.extended_pan_id;
    if network.0 != 0 {
        control.nlme.nib.extended_panid = network;
    }
    operation::in_phase(control, Phase::Idle)
}

// The rejoin has succeeded.
#[tactic(auto, unfolding(crate::specs::Rejoin::rejoined))]
fn finish_rejoin(control: Control, response: RejoinResponse) -> Decision
    ensures { result ≡ rejoined response control }
{
    let confirm = NlmeJoinConfirm {
        status: NlmeJoinStatus::Success,
        network_address: response.network_address,
        extended_pan_id: control.operation.extended_pan_id,
        channel: control.operation.channel,
    };
    let note = Some(Note::SetAddress(response.network_address));
    operation::decided(end_rejoin(control), Move::Stay, note, Step::Joined(confirm))
}

// The response ends the try.
#[tactic(auto, unfolding(crate::specs::Rejoin::responded))]
fn decide_response(
    control: Control,
    response: RejoinResponse,
    next: Option<NwkNeighbor>,
) -> Decision
    ensures { result ≡ responded response next control }
{
    if response.status == 0 {
        return finish_rejoin(control, response);
    }
    fail_try(control, crate::failed_status(response.status), next)
}

// Without a response the polls go on while any is left.
#[tactic(auto, using(operation::proofs::Polls::polls_on))]
fn poll_again(control: Control, parent: Option<NwkNeighbor>, next: Option<NwkNeighbor>) -> Decision
    ensures { result ≡ poll_on ReceptionFor.RejoinResponse parent (try_failed NlmeJoinStatus.MacError next) control }
{
    let over = |control| fail_try(control, NlmeJoinStatus::MacError, next);
    operation::next_poll(control, ReceptionFor::RejoinResponse, parent).unwrap_or_else(over)
}

// Within a try: its response ends it, or the polls go on.
#[tactic(auto, unfolding(crate::specs::Rejoin::answered_by))]
pub fn try_goes_on(
    control: Control,
    parent: Option<NwkNeighbor>,
    next: Option<NwkNeighbor>,
) -> Decision
    ensures { result ≡ try_goes_on parent next control }
{
    match control.nlme.signals.rejoin_response {
        Some(response) => {
            let taken = operation::with_nlme(control, without_response(control.nlme));
            decide_response(taken, response, next)
        }
        None => poll_again(control, parent, next),
    }
}

// The rejoin request has been sent, or its send has failed.
#[tactic(auto, unfolding(crate::specs::Rejoin::request_sent))]
pub fn decide_request(
    control: Control,
    sent: bool,
    parent: Option<NwkNeighbor>,
    next: Option<NwkNeighbor>,
) -> Decision
    ensures { result ≡ request_sent sent parent next control }
{
    if sent {
        return try_goes_on(control, parent, next);
    }
    fail_try(control, NlmeJoinStatus::MacError, next)
}
