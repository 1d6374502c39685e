// Sends, polls and receives outside a rejoin, the start of each and what follows each outcome; the tick and the takings.
#![tactic(auto)]

ghost use Rattle.std.specs.Prelude.{◌≡◌, cond};
ghost use Rattle.management.specs.Frame.{next_seq};
ghost use Rattle.management.specs.declared.frame.SentFrame.TheVariants.{DataFrame};
ghost use Rattle.nlme.specs.Nlme.{transmission, nlme_ticked, sent_via_parent, failed_via_parent};
ghost use Rattle.exchange.specs.Exchange.{send_started, data_sent, poll_started, receive_started, no_data, poll_over, tick_told, timeout_refreshed, leave_taken, status_taken};

pub mod negotiation;

use management::frame::{DataHeader, SentFrame};
use management::{PollAnswer, SendAnswer, frame};
use nib::{NwkNeighbor, ShortAddress};
use nlme::{Nlme, Transmission, ViaParent};
use operation::{Control, Decision, Phase, RadioRequest, ReceptionFor, Step, TransmissionFor};

// The next data frame, by way of a parent.
fn data_frame(
    nlme: Nlme,
    destination: ShortAddress,
    secure: bool,
    address: ShortAddress,
) -> Transmission
    ensures { result ≡ transmission nlme address (DataFrame (record { destination = destination; source = nlme.nib.network_address; sequence_number = next_seq nlme.nwk_seq; secure = secure })) }
{
    let header = DataHeader {
        destination,
        source: nlme.nib.network_address,
        sequence_number: frame::next_nwk_seq(nlme.nwk_seq),
        secure,
    };
    Transmission {
        pan_id: nlme.nib.panid,
        address,
        frame: SentFrame::DataFrame(header),
    }
}

// The start of a data send.
// The control part and what was seen are parameters here and below, and no struct: they come from the state and the table, and are read one by one at once.
#[tactic(auto, unfolding(crate::specs::Exchange::send_started))]
pub fn start_send(
    control: Control,
    destination: ShortAddress,
    secure: bool,
    parent: Option<NwkNeighbor>,
) -> Decision
    ensures { result ≡ send_started destination secure parent control }
{
    let used = operation::with_nlme(control, control.nlme.use_nwk_seq());
    match parent {
        None => operation::ending(used, Step::Sent(SendAnswer::SendNotJoined)),
        Some(parent) => {
            let frame = data_frame(control.nlme, destination, secure, parent.network_address);
            operation::transmit(used, Phase::Transmission(TransmissionFor::Data), frame)
        }
    }
}

// What the outcome of a data send does to the failure pairs and the timer, and its answer.
fn count_send(nlme: Nlme, sent: bool, parent: Option<NwkNeighbor>) -> ViaParent
    ensures { result ≡ cond sent (sent_via_parent parent nlme) (failed_via_parent parent nlme) }
{
    if sent {
        nlme.sent_via_parent(parent)
    } else {
        nlme.failed_via_parent(parent)
    }
}

// The outcome of a data send.
#[tactic(auto, unfolding(crate::specs::Exchange::data_sent))]
pub fn decide_send(control: Control, sent: bool, parent: Option<NwkNeighbor>) -> Decision
    ensures { result ≡ data_sent sent parent control }
{
    let ViaParent { nlme, answer } = count_send(control.nlme, sent, parent);
    operation::ending(operation::with_nlme(control, nlme), Step::Sent(answer))
}

// A poll or a receive ends with an answer.
#[tactic(auto, unfolding(crate::specs::Exchange::poll_over))]
pub fn end_poll(control: Control, answer: PollAnswer) -> Decision
    ensures { result ≡ poll_over answer control }
{
    operation::ending(control, Step::Polled(answer))
}

// The start of one poll of the parent.
#[tactic(auto, unfolding(crate::specs::Exchange::poll_started, crate::specs::Exchange::poll_over))]
pub fn start_poll(control: Control, parent: Option<NwkNeighbor>) -> Decision
    ensures { result ≡ poll_started parent control }
{
    match parent {
        None => end_poll(control, PollAnswer::PollNotJoined),
        Some(parent) => operation::poll_parent(control, ReceptionFor::SinglePoll, parent),
    }
}

// The start of one passive receive.
#[tactic(auto, unfolding(crate::specs::Exchange::receive_started))]
pub fn start_receive(control: Control) -> Decision
    ensures { result ≡ receive_started control }
{
    operation::asking(
        control,
        Phase::Reception(ReceptionFor::SingleReceive),
        RadioRequest::Receive,
    )
}

// What a poll or a receive that brings nothing answers.
pub fn no_data(purpose: ReceptionFor) -> PollAnswer
    ensures { result ≡ no_data purpose }
{
    match purpose {
        ReceptionFor::SingleReceive => PollAnswer::PollMacError,
        ReceptionFor::RejoinResponse
        | ReceptionFor::SinglePoll
        | ReceptionFor::TimeoutResponse(_) => { PollAnswer::PollNothing }
    }
}

// The tick of the parent's timer.
pub fn decide_tick(control: Control, parent: Option<NwkNeighbor>, elapsed_ms: u32) -> Decision
    ensures { result ≡ tick_told (nlme_ticked parent elapsed_ms control.nlme) control }
{
    let ticked = control.nlme.tick_parent_timeout(parent, elapsed_ms);
    let next = operation::with_nlme(control, ticked.nlme);
    operation::telling(next, Step::Expired(ticked.expired))
}

// The parent's timer is restarted.
pub fn refresh_timeout(control: Control) -> Decision
    ensures { result ≡ timeout_refreshed control }
{
    let next = operation::with_nlme(control, control.nlme.refresh_parent_timeout());
    operation::telling(next, Step::Done)
}

// The leave indication is taken.
// `take_status` has the same two lines over another slot and another step: one function for both would be longer.
pub fn take_leave(mut control: Control) -> Decision
    ensures { result ≡ leave_taken control }
{
    let taken = control.nlme.signals.leave_indication.take();
    operation::telling(control, Step::LeaveTaken(taken))
}

// The status indication is taken, as `take_leave` takes the leave indication.
pub fn take_status(mut control: Control) -> Decision
    ensures { result ≡ status_taken control }
{
    let taken = control.nlme.signals.nwk_status_indication.take();
    operation::telling(control, Step::StatusTaken(taken))
}
