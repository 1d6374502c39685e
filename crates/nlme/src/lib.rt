// The node's own part of the state, and what calls do to it: frames that are sent, the signal of a parent link failure, and supervision of the parent.
#![tactic(auto)]

ghost use Rattle.std.specs.Prelude.{◌≡◌};
ghost use Rattle.supervision.specs.Keepalive.{keepalive_interval_ms, keepalive_method, negotiated_poll_interval_ms};
ghost use Rattle.management.specs.declared.frame.SentFrame.{SentFrame};
ghost use Rattle.nlme.specs.Nlme.{new_nlme, parent_address, link_failure, refreshed, negotiation_reset, command_header, seq_used, transmission, timeout_requested, nlme_ticked, sent_via_parent, failed_via_parent};

pub mod received;

use management::frame::{CommandHeader, SentCommand, SentFrame};
use management::{NlmeNwkStatusIndication, SendAnswer, Signals, frame};
use nib::{
    IeeeAddress, NO_TIMEOUT_NEGOTIATED, Nib, NwkNeighbor, PanId, ShortAddress, neighbor_table,
};
use supervision::parent_timer::{ParentTimer, Ticked};
use supervision::{KeepaliveMethod, TransmitFailures};

// No timeout request awaits its response.
pub const NO_PENDING_TIMEOUT: u8 = 0xff;

// The node's own part of the state.
#[derive(Clone, Copy)]
pub struct Nlme {
    // the attributes
    pub nib: Nib,
    // the last sequence number used
    pub nwk_seq: u8,
    // the index of a timeout request that awaits its response; `NO_PENDING_TIMEOUT` for none
    pub pending_timeout_request: u8,
    // the timer that watches the parent
    pub parent_timer: ParentTimer,
    // what was received and is still to be taken
    pub signals: Signals,
    // the sends that failed, by neighbour
    pub transmit_failures: TransmitFailures,
}

// A frame for the radio to transmit, and to whom.
#[derive(Clone, Copy)]
pub struct Transmission {
    // the PAN that it is sent in
    pub pan_id: PanId,
    // the neighbour that it is sent to, or the broadcast address
    pub address: ShortAddress,
    // what is sent
    pub frame: SentFrame,
}

// What the start of a transmission leaves, and what the radio is asked.
#[derive(Clone, Copy)]
pub struct Transmitting {
    // the node's own part then
    pub nlme: Nlme,
    // what the radio is asked to send
    pub transmission: Transmission,
}

// What a tick leaves, and whether the timer expired.
#[derive(Clone, Copy)]
pub struct NlmeTicked {
    // the node's own part then
    pub nlme: Nlme,
    // whether the timer has just reached 0
    pub expired: bool,
}

// What the outcome of a send by way of the parent leaves, and its answer.
#[derive(Clone, Copy)]
pub struct ViaParent {
    // the node's own part then
    pub nlme: Nlme,
    // the send's answer
    pub answer: SendAnswer,
}

// The parent's short address, 0xffff where there is no parent.
pub fn parent_address(parent: Option<NwkNeighbor>) -> ShortAddress
    ensures { result ≡ parent_address parent }
{
    parent.map_or(nib::NWK_UNASSIGNED_ADDRESS, |e| e.network_address)
}

impl Nlme {
    // As the source's `Nlme::new`: with these attributes and this last sequence number, which the source draws at random. No timeout request is pending, the
    // timer is inactive, every slot is empty, and no send has failed.
    #[tactic(auto, unfolding(crate::specs::Nlme::new_nlme))]
    pub fn new(nib: Nib, nwk_seq: u8) -> Nlme
        ensures { result ≡ new_nlme nib nwk_seq }
    {
        Nlme {
            nib,
            nwk_seq,
            pending_timeout_request: NO_PENDING_TIMEOUT,
            parent_timer: ParentTimer::new(),
            signals: Signals::new(),
            transmit_failures: TransmitFailures::new(),
        }
    }

    // Signals ParentLinkFailure with the parent's short address.
    #[tactic(auto, unfolding(crate::specs::Nlme::link_failure))]
    pub fn parent_link_failure(mut self, parent: Option<NwkNeighbor>) -> Nlme
        ensures { result ≡ link_failure parent self }
    {
        let network_address = parent_address(parent);
        self.signals = self
            .signals
            .with_status_indication(Some(NlmeNwkStatusIndication { network_address }));
        self
    }

    // Restarts the timer at the negotiated timeout.
    #[tactic(auto, unfolding(crate::specs::Nlme::refreshed))]
    pub fn refresh_parent_timeout(mut self) -> Nlme
        ensures { result ≡ refreshed self }
    {
        self.parent_timer = supervision::refresh_parent_timeout(self.nib.end_device_timeout);
        self
    }

    // Parent information 0, timeout index 0xff, timer 0.
    #[tactic(auto, unfolding(crate::specs::Nlme::negotiation_reset))]
    pub fn reset_parent_negotiation(mut self) -> Nlme
        ensures { result ≡ negotiation_reset self }
    {
        self.nib.parent_information = 0;
        self.nib.end_device_timeout = NO_TIMEOUT_NEGOTIATED;
        self.parent_timer = ParentTimer::new();
        self
    }

    // The header of the next command frame.
    #[tactic(auto, unfolding(crate::specs::Nlme::command_header))]
    pub fn command_header(
        self,
        destination: ShortAddress,
        destination_ieee: Option<IeeeAddress>,
        secure: bool,
    ) -> CommandHeader
        ensures { result ≡ command_header self destination destination_ieee secure }
    {
        CommandHeader {
            destination,
            destination_ieee,
            source: self.nib.network_address,
            source_ieee: self.nib.ieee_address,
            sequence_number: frame::next_nwk_seq(self.nwk_seq),
            secure,
        }
    }

    // One sequence number is used up.
    pub fn use_nwk_seq(mut self) -> Nlme
        ensures { result ≡ seq_used self }
    {
        self.nwk_seq = frame::next_nwk_seq(self.nwk_seq);
        self
    }

    // The next command frame to a short address in this network, as it is transmitted.
    pub fn command_to(
        self,
        destination: ShortAddress,
        destination_ieee: Option<IeeeAddress>,
        secure: bool,
        command: SentCommand,
    ) -> Transmission
        ensures { result ≡ transmission self destination (SentFrame.CommandFrame (command_header self destination destination_ieee secure) command) }
    {
        let header = self.command_header(destination, destination_ieee, secure);
        Transmission {
            pan_id: self.nib.panid,
            address: destination,
            frame: SentFrame::CommandFrame(header, command),
        }
    }

    // A timeout request to the parent as it is transmitted.
    #[tactic(auto, unfolding(crate::specs::Nlme::timeout_requested))]
    fn timeout_transmission(self, parent: NwkNeighbor) -> Transmission
        ensures { result ≡ (timeout_requested parent self).transmission }
    {
        let ieee = neighbor_table::known_ieee(Some(parent));
        let command = SentCommand::TimeoutRequest(self.nib.end_device_timeout_default);
        let secure = true;
        self.command_to(parent.network_address, ieee, secure, command)
    }

    // A timeout request to the parent, pending once it is built.
    #[tactic(auto, unfolding(crate::specs::Nlme::timeout_requested))]
    pub fn timeout_request(mut self, parent: NwkNeighbor) -> Transmitting
        ensures { result ≡ timeout_requested parent self }
    {
        let transmission = self.timeout_transmission(parent);
        self = self.use_nwk_seq();
        self.pending_timeout_request = self.nib.end_device_timeout_default;
        Transmitting {
            nlme: self,
            transmission,
        }
    }

    // The timer tick.
    #[tactic(auto, unfolding(crate::specs::Nlme::expiry_signalled))]
    pub fn tick_parent_timeout(mut self, parent: Option<NwkNeighbor>, elapsed_ms: u32) -> NlmeTicked
        ensures { result ≡ nlme_ticked parent elapsed_ms self }
    {
        let Ticked { timer, expired } = self.parent_timer.tick(elapsed_ms);
        self.parent_timer = timer;
        if expired {
            self = self.parent_link_failure(parent);
        }
        NlmeTicked {
            nlme: self,
            expired,
        }
    }

    // A send through the parent succeeded.
    #[tactic(auto, unfolding(crate::specs::Nlme::sent_via_parent))]
    pub fn sent_via_parent(mut self, parent: Option<NwkNeighbor>) -> ViaParent
        ensures { result ≡ sent_via_parent parent self }
    {
        let address = parent_address(parent);
        self.transmit_failures = supervision::clear_transmit_failures(
            self.transmit_failures,
            address,
        );
        ViaParent {
            nlme: self.refresh_parent_timeout(),
            answer: SendAnswer::SendOk,
        }
    }

    // A send through the parent failed.
    #[tactic(auto, unfolding(crate::specs::Nlme::failure_counted))]
    pub fn failed_via_parent(mut self, parent: Option<NwkNeighbor>) -> ViaParent
        ensures { result ≡ failed_via_parent parent self }
    {
        let failed = supervision::transmit_failed(self.transmit_failures, parent_address(parent));
        self.transmit_failures = failed.failures;
        if failed.link_failed {
            ViaParent {
                nlme: self.parent_link_failure(parent),
                answer: SendAnswer::SendParentLinkFailure,
            }
        } else {
            ViaParent {
                nlme: self,
                answer: SendAnswer::SendMacError,
            }
        }
    }

    // The keepalive that the parent expects.
    pub fn keepalive_method(self) -> KeepaliveMethod
        ensures { result ≡ keepalive_method self.nib.end_device_timeout self.nib.parent_information }
    {
        supervision::keepalive_method(self.nib.end_device_timeout, self.nib.parent_information)
    }

    // The interval between keepalives in milliseconds.
    pub fn keepalive_interval_ms(self) -> Option<u32>
        ensures { result ≡ keepalive_interval_ms self.nib.end_device_timeout }
    {
        supervision::keepalive_interval_ms(self.nib.end_device_timeout)
    }

    // The interval between polls in milliseconds, where polls are the keepalive.
    pub fn negotiated_poll_interval_ms(self) -> Option<u32>
        ensures { result ≡ negotiated_poll_interval_ms self.nib.end_device_timeout self.nib.parent_information }
    {
        supervision::negotiated_poll_interval_ms(
            self.nib.end_device_timeout,
            self.nib.parent_information,
        )
    }
}
