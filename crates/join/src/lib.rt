// What a join and a rejoin share: a confirm without success, what is reset and stored at the start, and the status of a response that is no success.
#![tactic(auto)]

ghost use Rattle.std.specs.Prelude.{◌≡◌, None};
ghost use Rattle.operation.specs.Operation.{in_phase, decided};
ghost use Rattle.join.specs.Join.{failure, failing, clearing, reset_negotiation, store_capabilities, failed_status};

pub mod association;
pub mod rejoin;

use management::{NlmeJoinConfirm, NlmeJoinStatus};
use nib::{CapabilityInformation, ExtendedPanId};
use operation::{Control, Decision, Move, Phase, Step};

// The confirm of a join or rejoin without success.
fn join_failure(status: NlmeJoinStatus) -> NlmeJoinConfirm
    ensures { result ≡ failure status }
{
    NlmeJoinConfirm {
        status,
        network_address: nib::NWK_UNASSIGNED_ADDRESS,
        extended_pan_id: ExtendedPanId(0),
        channel: 0,
    }
}

// A decision that does something with the candidates, and what is awaited then.
fn moving(control: Control, phase: Phase, clear: bool, candidate: Move, step: Step) -> Decision
    ensures { result ≡ clearing clear (decided candidate None step (in_phase phase control)) }
{
    let control = operation::in_phase(control, phase);
    Decision {
        clear_potential_parent: clear,
        ..operation::decided(control, candidate, None, step)
    }
}

// The join or rejoin ends without success.
fn failing_on(control: Control, clear: bool, status: NlmeJoinStatus) -> Decision
    ensures { result ≡ clearing clear (failing status control) }
{
    let step = Step::Joined(join_failure(status));
    moving(control, Phase::Idle, clear, Move::Stay, step)
}

// The same, with the candidate being tried as it is.
pub fn failing(control: Control, status: NlmeJoinStatus) -> Decision
    ensures { result ≡ failing status control }
{
    let clear = false;
    failing_on(control, clear, status)
}

// Forgets what was negotiated with the last parent.
pub fn reset_negotiation(control: Control) -> Control
    ensures { result ≡ reset_negotiation control }
{
    operation::with_nlme(control, control.nlme.reset_parent_negotiation())
}

// Stores the capabilities of a request.
pub fn store_capabilities(mut control: Control, capabilities: CapabilityInformation) -> Control
    ensures { result ≡ store_capabilities capabilities control }
{
    control.nlme.nib.capability_information = capabilities;
    control
}

// The status of a confirm for the status of an association or rejoin response that is no success.
// No `From`: it is no conversion, since all statuses but two are a MAC error.
#[tactic(auto, unfolding(crate::specs::Join::failed_status))]
pub fn failed_status(status: u8) -> NlmeJoinStatus
    ensures { result ≡ failed_status status }
{
    match status {
        1 => NlmeJoinStatus::PanAtCapacity,
        2 => NlmeJoinStatus::PanAccessDenied,
        _ => NlmeJoinStatus::MacError,
    }
}
