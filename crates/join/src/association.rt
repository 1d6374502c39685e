// The association: its start, and what follows each outcome.
ghost use Rattle.std.specs.Prelude.{◌≡◌};
ghost use Rattle.operation.specs.declared.RadioRequest.TheVariants.{Associate};
ghost use Rattle.join.specs.Join.{clearing, associate_request, associating, join_started, joined_control, joined_confirm, joined_by, clears, candidate_failed, succeeded, associated};

use discovery::mlme::{self, MacError};
use management::{NlmeJoinConfirm, NlmeJoinStatus};
use nib::{CapabilityInformation, IeeeAddress, Nib, NwkNeighbor, ShortAddress};
use operation::{AssociateRequest, Control, Decision, Move, Phase, RadioRequest, Step};

// The answer of a candidate: its status, the short address assigned and this device's IEEE address.
#[derive(Clone, Copy)]
pub struct AssociationResponse {
    // 0 success, 1 at capacity, 2 access denied
    pub status: u8,
    // the short address that is given
    pub association_address: ShortAddress,
    // this device's IEEE address
    pub device_address: IeeeAddress,
}

// The request to associate with an entry.
fn associate_request(control: Control, entry: NwkNeighbor) -> RadioRequest
    ensures { result ≡ Associate (associate_request entry control) }
{
    RadioRequest::Associate(AssociateRequest {
        channel: entry.logical_channel,
        pan_id: entry.pan_id,
        address: entry.network_address,
        capabilities: mlme::build_mac_capabilities(control.nlme.nib.capability_information),
    })
}

// An association with an entry is requested; `clear` says whether the candidate tried before it is no longer a potential parent.
#[tactic(auto, unfolding(crate::specs::Join::associating))]
fn request_association(control: Control, clear: bool, entry: NwkNeighbor) -> Decision
    ensures { result ≡ clearing clear (associating entry control) }
{
    let step = Step::Ask(associate_request(control, entry));
    crate::moving(control, Phase::Association, clear, Move::TakeNext, step)
}

// The start of a join whose candidates are chosen.
// The control part and what was seen are parameters here and below, and no struct: they come from the state and the table, and are read one by one at once.
#[tactic(auto, unfolding(crate::specs::Join::join_started, crate::specs::Join::associating))]
pub fn start_join(
    control: Control,
    capability_information: CapabilityInformation,
    next: Option<NwkNeighbor>,
) -> Decision
    ensures { result ≡ join_started capability_information next control }
{
    let reset = crate::reset_negotiation(control);
    match next {
        None => crate::failing(reset, NlmeJoinStatus::NotPermitted),
        Some(entry) => {
            let stored = crate::store_capabilities(reset, capability_information);
            let clear = false;
            request_association(stored, clear, entry)
        }
    }
}

// The control part once the entry being tried is the parent.
fn joined_control(
    mut control: Control,
    response: AssociationResponse,
    entry: NwkNeighbor,
) -> Control
    ensures { result ≡ joined_control response entry control }
{
    control.nlme.nib = Nib {
        network_address: response.association_address,
        ieee_address: response.device_address,
        extended_panid: entry.extended_pan_id,
        panid: entry.pan_id,
        update_id: entry.update_id,
        ..control.nlme.nib
    };
    control
}

fn joined_confirm(response: AssociationResponse, entry: NwkNeighbor) -> NlmeJoinConfirm
    ensures { result ≡ joined_confirm response entry }
{
    NlmeJoinConfirm {
        status: NlmeJoinStatus::Success,
        network_address: response.association_address,
        extended_pan_id: entry.extended_pan_id,
        channel: entry.logical_channel,
    }
}

// The candidate being tried becomes the parent.
#[tactic(auto, unfolding(crate::specs::Join::joined_by))]
fn finish_join(control: Control, response: AssociationResponse, entry: NwkNeighbor) -> Decision
    ensures { result ≡ joined_by response entry control }
{
    let step = Step::Joined(joined_confirm(response, entry));
    let joined = joined_control(control, response, entry);
    let clear = false;
    crate::moving(joined, Phase::Idle, clear, Move::JoinTried, step)
}

// Whether a candidate that has failed with a status is no longer a potential parent.
fn clears(status: NlmeJoinStatus) -> bool
    ensures { result ≡ clears status }
{
    matches!(
        status,
        NlmeJoinStatus::PanAtCapacity | NlmeJoinStatus::PanAccessDenied
    )
}

// A candidate has failed: the next one is tried, or its status stands.
#[tactic(auto, unfolding(crate::specs::Join::candidate_failed))]
fn fail_candidate(control: Control, status: NlmeJoinStatus, next: Option<NwkNeighbor>) -> Decision
    ensures { result ≡ candidate_failed status next control }
{
    let clear = clears(status);
    match next {
        None => crate::failing_on(control, clear, status),
        Some(entry) => request_association(control, clear, entry),
    }
}

// Status 0. With no candidate being tried it counts as a radio error.
#[tactic(auto, unfolding(crate::specs::Join::succeeded))]
fn succeeded(
    control: Control,
    response: AssociationResponse,
    tried: Option<NwkNeighbor>,
    next: Option<NwkNeighbor>,
) -> Decision
    ensures { result ≡ succeeded response tried next control }
{
    match tried {
        None => fail_candidate(control, NlmeJoinStatus::MacError, next),
        Some(entry) => finish_join(control, response, entry),
    }
}

// The outcome of an association: the answer of the candidate, or a radio error.
#[tactic(auto, unfolding(crate::specs::Join::associated))]
pub fn decide_association(
    control: Control,
    outcome: Result<AssociationResponse, MacError>,
    tried: Option<NwkNeighbor>,
    next: Option<NwkNeighbor>,
) -> Decision
    ensures { result ≡ associated outcome tried next control }
{
    match outcome {
        Ok(response) if response.status == 0 => succeeded(control, response, tried, next),
        Ok(response) => fail_candidate(control, crate::failed_status(response.status), next),
        Err(MacError) => fail_candidate(control, NlmeJoinStatus::MacError, next),
    }
}
