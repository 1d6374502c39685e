// NWK frames as values: those received, with the header fields that decisions read, and those sent.
ghost use Rattle.std.specs.Prelude.{◌≡◌};
ghost use Rattle.management.specs.Frame.{sender_of, next_seq};

use crate::{EndDeviceTimeoutResponse, RejoinResponse};
use nib::{CapabilityInformation, IeeeAddress, ShortAddress};

// The sender of a received frame.
#[derive(Clone, Copy)]
pub struct Source {
    // its short address
    pub address: ShortAddress,
    // its IEEE address, where the frame carries one
    pub ieee: Option<IeeeAddress>,
}

// The options of a leave command (Zigbee 3.4.4): whether it is a request, whether the device that leaves rejoins, and whether its children are removed.
#[derive(Clone, Copy)]
pub struct LeaveOptions {
    // whether the receiver is asked to leave; else the sender leaves
    pub request: bool,
    // whether the device that leaves rejoins
    pub rejoin: bool,
    // whether its children are removed too
    pub remove_children: bool,
}

// A frame that the radio received, decoded, or one that can't be decoded.
#[derive(Clone, Copy)]
pub enum ReceivedFrame {
    // a frame that can't be decoded
    Undecodable,
    // a data frame, without what it carries
    Data(Source),
    // a rejoin response
    RejoinResponseCommand(Source, RejoinResponse),
    // an end device timeout response
    TimeoutResponseCommand(Source, EndDeviceTimeoutResponse),
    // its destination and options
    LeaveCommand(Source, ShortAddress, LeaveOptions),
    // any other command: it tells the table of its sender, and no more
    OtherCommand(Source),
    // reserved or inter-PAN
    OtherFrame,
}

impl ReceivedFrame {
    // The sender of a data or command frame; the other frames name none.
    #[tactic(auto, unfolding(crate::specs::Frame::sender_of))]
    pub fn sender(self) -> Option<Source>
        ensures { result ≡ sender_of self }
    {
        match self {
            ReceivedFrame::Data(source)
            | ReceivedFrame::RejoinResponseCommand(source, _)
            | ReceivedFrame::TimeoutResponseCommand(source, _)
            | ReceivedFrame::LeaveCommand(source, _, _)
            | ReceivedFrame::OtherCommand(source) => Some(source),
            ReceivedFrame::Undecodable | ReceivedFrame::OtherFrame => None,
        }
    }
}

// The header of a command frame that is sent.
#[derive(Clone, Copy)]
pub struct CommandHeader {
    // the short address that it is for
    pub destination: ShortAddress,
    // the destination's IEEE address, where it is known
    pub destination_ieee: Option<IeeeAddress>,
    // this device's short address
    pub source: ShortAddress,
    // this device's IEEE address
    pub source_ieee: IeeeAddress,
    // the sequence number that it uses up
    pub sequence_number: u8,
    // whether it is sent secured
    pub secure: bool,
}

// The header of a data frame that is sent: it carries no IEEE address.
#[derive(Clone, Copy)]
pub struct DataHeader {
    // the short address that it is for
    pub destination: ShortAddress,
    // this device's short address
    pub source: ShortAddress,
    // the sequence number that it uses up
    pub sequence_number: u8,
    // whether it is sent secured
    pub secure: bool,
}

// A command that is sent.
#[derive(Clone, Copy)]
pub enum SentCommand {
    // this device's capabilities
    RejoinRequest(CapabilityInformation),
    // the requested timeout index
    TimeoutRequest(u8),
    // its options, without the request bit
    Leave(LeaveOptions),
}

// A frame that is sent.
#[derive(Clone, Copy)]
pub enum SentFrame {
    // a data frame, to which its owner adds what it carries
    DataFrame(DataHeader),
    // a command frame
    CommandFrame(CommandHeader, SentCommand),
}

// The sequence number after one: up by one, and from 255 to 0.
pub fn next_nwk_seq(sequence_number: u8) -> u8
    ensures { result ≡ next_seq sequence_number }
{
    sequence_number.wrapping_add(1)
}
