// What a received frame does: its sender is heard, responses, and leave commands.
ghost use Rattle.std.specs.Prelude.{◌≡◌};
ghost use Rattle.management.specs.Frame.{sender_of};
ghost use Rattle.nib.specs.NeighborTable.{on_entries};
ghost use Rattle.nlme.specs.Received.{taught_by, heard_from, rejoin_responded, timeout_signalled, stored, timeout_responded, is_from_parent, leave_indicated, neighbor_leaving, neighbor_left, accepts_leave, leave_to, announcement, dealt_with, leave_requested, leave_handled, handled, left_for, leave_announced};

use crate::{Nlme, Transmission};
use management::frame::{LeaveOptions, ReceivedFrame, SentCommand, Source};
use management::{
    EndDeviceTimeoutResponse, LeavingDevice, NlmeLeaveIndication, PollAnswer, RejoinResponse,
};
use nib::{
    ExtendedPanId, IeeeAddress, NeighborTable, Nib, NwkNeighbor, ShortAddress, neighbor_table,
};

// The announcement of this device's leave: the frame, and whether the device rejoins.
#[derive(Clone, Copy)]
pub struct LeaveAnnouncement {
    // the leave command as it is sent
    pub transmission: Transmission,
    // whether the device rejoins
    pub rejoin: bool,
}

// What follows a frame: the poll or receive is over, with what a single one answers; or a leave is announced.
#[derive(Clone, Copy)]
pub enum Then {
    // the poll or receive is over, and this is what a single one answers
    Over(PollAnswer),
    // a leave request was accepted: it is announced first
    Announce(LeaveAnnouncement),
}

// What a frame leaves, the address of the neighbour that leaves the table, and what follows.
#[derive(Clone, Copy)]
pub struct Handled {
    // the node's own part then
    pub nlme: Nlme,
    // the neighbour that leaves the table, where one does
    pub removed: Option<ShortAddress>,
    // what follows
    pub then: Then,
}

#[tactic(auto, unfolding(crate::specs::Received::taught_by))]
fn learn_source(table: NeighborTable, source: Source) -> NeighborTable
    ensures { result ≡ on_entries (taught_by source.ieee source.address) table }
{
    match source.ieee {
        Some(ieee) => neighbor_table::learn_neighbor_ieee_address(table, source.address, ieee),
        None => table,
    }
}

// The table after a frame: it has taught its sender's IEEE address, and its sender was heard now.
pub fn hear_sender(table: NeighborTable, frame: ReceivedFrame, clock: u32) -> NeighborTable
    ensures { result ≡ on_entries (heard_from (sender_of frame) clock) table }
{
    match frame.sender() {
        Some(source) => {
            let taught = learn_source(table, source);
            neighbor_table::renew_last_heard(taught, source.address, clock)
        }
        None => table,
    }
}

#[tactic(auto, unfolding(crate::specs::Received::rejoin_responded))]
fn handle_rejoin_response(mut nlme: Nlme, response: RejoinResponse) -> Nlme
    ensures { result ≡ rejoin_responded response nlme }
{
    nlme.signals = nlme.signals.with_rejoin_response(Some(response));
    if response.status == 0 {
        nlme.nib.network_address = response.network_address;
    }
    nlme
}

// The negotiated timeout is stored and the timer restarted.
#[tactic(auto, unfolding(crate::specs::Received::stored))]
fn store_negotiated(mut nlme: Nlme, parent_information: u8) -> Nlme
    ensures { result ≡ stored parent_information nlme }
{
    nlme.nib.parent_information = parent_information;
    nlme.nib.end_device_timeout = nlme.pending_timeout_request;
    nlme.refresh_parent_timeout()
}

fn signal_timeout_response(mut nlme: Nlme, response: EndDeviceTimeoutResponse) -> Nlme
    ensures { result ≡ timeout_signalled response nlme }
{
    nlme.signals = nlme.signals.with_timeout_response(Some(response));
    nlme.pending_timeout_request = crate::NO_PENDING_TIMEOUT;
    nlme
}

#[tactic(auto, unfolding(crate::specs::Received::timeout_responded))]
fn handle_timeout_response(mut nlme: Nlme, response: EndDeviceTimeoutResponse) -> Nlme
    ensures { result ≡ timeout_responded response nlme }
{
    if response.status == 0 && nlme.pending_timeout_request != crate::NO_PENDING_TIMEOUT {
        nlme = store_negotiated(nlme, response.parent_information);
    }
    signal_timeout_response(nlme, response)
}

fn is_from_parent(parent: Option<NwkNeighbor>, source: ShortAddress) -> bool
    ensures { result ≡ is_from_parent parent source }
{
    parent.is_some_and(|p| p.network_address == source)
}

fn indicate_leave(mut nlme: Nlme, device: LeavingDevice, rejoin: bool) -> Nlme
    ensures { result ≡ leave_indicated device rejoin nlme }
{
    nlme.signals = nlme
        .signals
        .with_leave_indication(Some(NlmeLeaveIndication { device, rejoin }));
    nlme
}

// A neighbour that leaves: by the IEEE address that its frame carries, or else by its short address.
fn neighbor_leaving(source: Source) -> LeavingDevice
    ensures { result ≡ neighbor_leaving source.ieee source.address }
{
    match source.ieee {
        Some(ieee) => LeavingDevice::NeighborByIeee(ieee),
        None => LeavingDevice::NeighborByShort(source.address),
    }
}

#[tactic(auto, unfolding(crate::specs::Received::neighbor_left))]
fn neighbor_left(mut nlme: Nlme, parent: Option<NwkNeighbor>, source: Source, rejoin: bool) -> Nlme
    ensures { result ≡ neighbor_left parent source rejoin nlme }
{
    if is_from_parent(parent, source.address) {
        nlme.nib.extended_panid = ExtendedPanId(0);
        return indicate_leave(nlme, LeavingDevice::ThisDevice, rejoin);
    }
    indicate_leave(nlme, neighbor_leaving(source), rejoin)
}

// Whether a leave request is accepted.
#[tactic(auto, unfolding(crate::specs::Received::accepts_leave))]
pub fn accepts_leave_request(nib: Nib, destination: ShortAddress, from_parent: bool) -> bool
    ensures { result ≡ accepts_leave nib destination from_parent }
{
    if nib.network_address == nib::NWK_COORDINATOR_ADDRESS
        || nib::NWK_BROADCAST_ADDRESS_MIN <= destination.0
    {
        false
    } else if nib.capability_information.device_type() {
        nib.leave_request_allowed
    } else {
        from_parent
    }
}

fn leave_to(
    nlme: Nlme,
    address: ShortAddress,
    ieee: Option<IeeeAddress>,
    rejoin: bool,
    remove_children: bool,
) -> Transmission
    ensures { result ≡ leave_to nlme address ieee rejoin remove_children }
{
    let options = LeaveOptions {
        request: false,
        rejoin,
        remove_children,
    };
    let secure = true;
    nlme.command_to(address, ieee, secure, SentCommand::Leave(options))
}

// What is seen in the table when a frame is dealt with: the parent, and the IEEE address that is known of the broadcast address.
#[derive(Clone, Copy)]
struct Seen {
    parent: Option<NwkNeighbor>,
    broadcast_ieee: Option<IeeeAddress>,
}

#[tactic(auto, unfolding(crate::specs::Received::announcement))]
fn announce_leave(nlme: Nlme, seen: Seen, options: LeaveOptions) -> Transmission
    ensures { result ≡ announcement nlme seen.parent seen.broadcast_ieee options }
{
    if nlme.nib.capability_information.device_type() {
        leave_to(
            nlme,
            nib::NWK_BROADCAST_ALL,
            seen.broadcast_ieee,
            options.rejoin,
            options.remove_children,
        )
    } else {
        let ieee = neighbor_table::known_ieee(seen.parent);
        leave_to(
            nlme,
            crate::parent_address(seen.parent),
            ieee,
            options.rejoin,
            false,
        )
    }
}

// A frame that is dealt with and leaves the table as it is.
fn dealt_with(nlme: Nlme, answer: PollAnswer) -> Handled
    ensures { result ≡ dealt_with nlme answer }
{
    Handled {
        nlme,
        removed: None,
        then: Then::Over(answer),
    }
}

#[tactic(auto, unfolding(crate::specs::Received::leave_requested))]
fn handle_leave_request(
    nlme: Nlme,
    seen: Seen,
    source: ShortAddress,
    destination: ShortAddress,
    options: LeaveOptions,
) -> Handled
    ensures { result ≡ leave_requested seen.parent seen.broadcast_ieee source destination options nlme }
{
    let from_parent = is_from_parent(seen.parent, source);
    if !accepts_leave_request(nlme.nib, destination, from_parent) {
        return dealt_with(nlme, PollAnswer::PollNothing);
    }
    let announcement = LeaveAnnouncement {
        transmission: announce_leave(nlme, seen, options),
        rejoin: options.rejoin,
    };
    Handled {
        nlme: nlme.use_nwk_seq(),
        removed: None,
        then: Then::Announce(announcement),
    }
}

#[tactic(auto, unfolding(crate::specs::Received::leave_handled))]
fn handle_leave_command(
    nlme: Nlme,
    seen: Seen,
    source: Source,
    destination: ShortAddress,
    options: LeaveOptions,
) -> Handled
    ensures { result ≡ leave_handled seen.parent seen.broadcast_ieee source destination options nlme }
{
    if options.request {
        return handle_leave_request(nlme, seen, source.address, destination, options);
    }
    Handled {
        nlme: neighbor_left(nlme, seen.parent, source, options.rejoin),
        removed: Some(source.address),
        then: Then::Over(PollAnswer::PollNothing),
    }
}

// What a received frame does, after its sender was heard. What is seen is two parameters, and no `Seen`: who calls would make it for this one
// call.
#[tactic(auto, unfolding(crate::specs::Received::handled))]
pub fn process_received_nwk_frame(
    nlme: Nlme,
    parent: Option<NwkNeighbor>,
    broadcast_ieee: Option<IeeeAddress>,
    frame: ReceivedFrame,
) -> Handled
    ensures { result ≡ handled parent broadcast_ieee frame nlme }
{
    match frame {
        ReceivedFrame::Undecodable => dealt_with(nlme, PollAnswer::PollUndecodable),
        ReceivedFrame::Data(_) => dealt_with(nlme, PollAnswer::PollData),
        ReceivedFrame::RejoinResponseCommand(_, response) => {
            dealt_with(
                handle_rejoin_response(nlme, response),
                PollAnswer::PollNothing,
            )
        }
        ReceivedFrame::TimeoutResponseCommand(_, response) => {
            dealt_with(
                handle_timeout_response(nlme, response),
                PollAnswer::PollNothing,
            )
        }
        ReceivedFrame::LeaveCommand(source, destination, options) => {
            let seen = Seen {
                parent,
                broadcast_ieee,
            };
            handle_leave_command(nlme, seen, source, destination, options)
        }
        ReceivedFrame::OtherCommand(_) | ReceivedFrame::OtherFrame => dealt_with(
            nlme,
            PollAnswer::PollNothing,
        ),
    }
}

// The attributes after an announced leave.
#[tactic(auto, unfolding(crate::specs::Received::left_for))]
fn leave_network(mut nib: Nib, rejoin: bool) -> Nib
    ensures { result ≡ left_for rejoin nib }
{
    if !rejoin {
        nib.network_address = nib::NWK_UNASSIGNED_ADDRESS;
        nib.extended_panid = ExtendedPanId(0);
        nib.panid = nib::NO_PAN_ID;
        nib.update_id = 0;
        nib.parent_information = 0;
    } else if !nib.capability_information.device_type() {
        nib.extended_panid = ExtendedPanId(0);
    }
    nib
}

// After the announcement of this device's leave, sent or not. Without the rejoin bit the caller clears the table too.
#[tactic(auto, unfolding(crate::specs::Received::leave_announced))]
pub fn leave_announced(mut nlme: Nlme, rejoin: bool) -> Nlme
    ensures { result ≡ leave_announced rejoin nlme }
{
    nlme.nib = leave_network(nlme.nib, rejoin);
    indicate_leave(nlme, LeavingDevice::ThisDevice, rejoin)
}
