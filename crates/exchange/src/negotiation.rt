// Negotiation and keepalive outside a rejoin: the start of each, and what follows each outcome.
ghost use Rattle.std.specs.Prelude.{◌≡◌, cond, eqb};
ghost use Rattle.nlme.specs.Nlme.{timeout_requested};
ghost use Rattle.operation.specs.Operation.{with_nlme, ending, poll_on};
ghost use Rattle.exchange.specs.Exchange.{timeout_failed, timeout_accepted, no_timeout_response, requesting, timeout_started, timeout_goes_on, timeout_request_sent};

use management::{KeepaliveAnswer, NegotiationAnswer};
use nib::NwkNeighbor;
use nlme::Nlme;
use operation::{Control, Decision, Phase, ReceptionFor, Step, TimeoutFor, TransmissionFor};

// The polls that follow a send that succeeded.
pub const TIMEOUT_RESPONSE_POLL_RETRIES: u8 = 3;

// A keepalive is over.
fn keepalive_over(control: Control, nlme: Nlme, answer: KeepaliveAnswer) -> Decision
    ensures { result ≡ ending (Step.KeepaliveOver answer) (with_nlme nlme control) }
{
    operation::ending(
        operation::with_nlme(control, nlme),
        Step::KeepaliveOver(answer),
    )
}

// A keepalive that fails signals it, whatever the reason; a negotiation says the reason.
// `control`, `purpose` and `parent` go together here and in the functions below, and no struct: they come from the state, the phase and the table, and are read
// one by one at once, so a struct of them would be made for one call.
#[tactic(auto, unfolding(crate::specs::Exchange::timeout_failed))]
fn fail_timeout(
    control: Control,
    purpose: TimeoutFor,
    answer: NegotiationAnswer,
    parent: Option<NwkNeighbor>,
) -> Decision
    ensures { result ≡ timeout_failed answer purpose parent control }
{
    match purpose {
        TimeoutFor::Negotiation => operation::ending(control, Step::NegotiationOver(answer)),
        TimeoutFor::Keepalive => {
            let failed = control.nlme.parent_link_failure(parent);
            keepalive_over(control, failed, KeepaliveAnswer::KeepaliveParentLinkFailure)
        }
    }
}

// The parent answered with status 0.
#[tactic(auto, unfolding(crate::specs::Exchange::timeout_accepted))]
fn accept_timeout(control: Control, purpose: TimeoutFor) -> Decision
    ensures { result ≡ timeout_accepted purpose control }
{
    match purpose {
        TimeoutFor::Negotiation => {
            operation::ending(
                control,
                Step::NegotiationOver(NegotiationAnswer::Negotiated),
            )
        }
        TimeoutFor::Keepalive => {
            let refreshed = control.nlme.refresh_parent_timeout();
            keepalive_over(control, refreshed, KeepaliveAnswer::KeepaliveOk)
        }
    }
}

// No timeout response is left in its slot.
// One line, as `without_response` of `join` is over another type: one function for both would be longer.
fn without_timeout_response(mut control: Control) -> Control
    ensures { result ≡ no_timeout_response control }
{
    control.nlme.signals.timeout_response = None;
    control
}

// The send of a timeout request, before its polls.
fn request_timeout(control: Control, purpose: TimeoutFor, parent: NwkNeighbor) -> Decision
    ensures { result ≡ requesting purpose (timeout_requested parent control.nlme) control }
{
    let built = control.nlme.timeout_request(parent);
    let pending = operation::with_nlme(control, built.nlme);
    let next = operation::with_polls_left(pending, TIMEOUT_RESPONSE_POLL_RETRIES);
    operation::transmit(
        next,
        Phase::Transmission(TransmissionFor::TimeoutRequest(purpose)),
        built.transmission,
    )
}

// The start of a negotiation or keepalive.
#[tactic(auto, unfolding(crate::specs::Exchange::timeout_started))]
pub fn start_timeout_request(
    control: Control,
    purpose: TimeoutFor,
    parent: Option<NwkNeighbor>,
) -> Decision
    ensures { result ≡ timeout_started purpose parent control }
{
    let ready = without_timeout_response(control);
    match parent {
        None => fail_timeout(
            ready,
            purpose,
            NegotiationAnswer::NegotiationNotJoined,
            None,
        ),
        Some(parent) => request_timeout(ready, purpose, parent),
    }
}

// Without a timeout response the polls go on while any is left.
#[tactic(auto, using(operation::proofs::Polls::polls_on))]
fn poll_again(control: Control, purpose: TimeoutFor, parent: Option<NwkNeighbor>) -> Decision
    ensures { result ≡ poll_on (ReceptionFor.TimeoutResponse purpose) parent (timeout_failed NegotiationAnswer.NotNegotiated purpose parent) control }
{
    let over = |control| fail_timeout(control, purpose, NegotiationAnswer::NotNegotiated, parent);
    operation::next_poll(control, ReceptionFor::TimeoutResponse(purpose), parent).unwrap_or_else(
        over,
    )
}

// A timeout response ends the polls, and its status decides.
fn decide_timeout_response(
    control: Control,
    purpose: TimeoutFor,
    status: u8,
    parent: Option<NwkNeighbor>,
) -> Decision
    ensures { result ≡ cond (eqb status 0) (timeout_accepted purpose (no_timeout_response control)) (timeout_failed NegotiationAnswer.NotNegotiated purpose parent (no_timeout_response control)) }
{
    let taken = without_timeout_response(control);
    if status == 0 {
        return accept_timeout(taken, purpose);
    }
    fail_timeout(taken, purpose, NegotiationAnswer::NotNegotiated, parent)
}

// The polls go on, or are over.
#[tactic(auto, unfolding(crate::specs::Exchange::timeout_answered_by))]
pub fn timeout_goes_on(
    control: Control,
    purpose: TimeoutFor,
    parent: Option<NwkNeighbor>,
) -> Decision
    ensures { result ≡ timeout_goes_on purpose parent control }
{
    match control.nlme.signals.timeout_response {
        None => poll_again(control, purpose, parent),
        Some(response) => decide_timeout_response(control, purpose, response.status, parent),
    }
}

// The outcome of the request's send.
#[tactic(auto, unfolding(crate::specs::Exchange::timeout_request_sent))]
pub fn decide_timeout_request(
    control: Control,
    purpose: TimeoutFor,
    sent: bool,
    parent: Option<NwkNeighbor>,
) -> Decision
    ensures { result ≡ timeout_request_sent purpose sent parent control }
{
    if sent {
        return timeout_goes_on(control, purpose, parent);
    }
    fail_timeout(
        control,
        purpose,
        NegotiationAnswer::NegotiationMacError,
        parent,
    )
}
