// A trace answered line by line: a line read, its call made, and what is said of it printed.
#![tactic(auto)]

ghost use Rattle.std.specs.Prelude.{◌≡◌, [], ◌∷◌, ◌+◌, ◌*◌, ◌≤◌, min, length, option_map};
ghost use Rattle.lists.specs.Lists.{over};
ghost use Rattle.nib.specs.Neighbors.{entries_of};
ghost use Rattle.candidates.specs.Candidates.{items_of};
ghost use Rattle.node.specs.Calls.{page_answer};
ghost use Rattle.text.specs.Writer.{with_text};
ghost use Rattle.trace_lines.specs.TraceLines.{line_text};
ghost use Rattle.trace.specs.Lines.{
  Line,
  word_line,
  refusal_line,
  nib_line,
  node_line,
  device_type_number,
  entry_line,
  failure_line,
  rejoin_response_line,
  timeout_response_line,
  device_field,
  leave_line,
  status_line,
  slot_lines,
  reset_line,
  note_line,
  scan_line,
  associate_line,
  data_line,
  command_line,
  command_frame_line,
  transmit_line,
  request_line,
  status_word,
  send_word,
  poll_word,
  negotiation_field,
  keepalive_word,
  confirm_line,
  taken_line,
  step_line,
  descriptor_line,
  candidates_line,
  choice_line,
  last_heard_line,
  bad_line,
};
ghost use Rattle.trace.specs.Trace.{some_text, lines_text, networks_of, network_count, each_line, told_lines, nlme_lines, state_lines, page_bytes, page_text, text_of, says_bad, turn_of, number_after, run_before, printed, run_after};

use candidates::CandidateList;
use discovery::mlme::MAX_PAN_DESCRIPTOR_SIZE;
use discovery::{NetworkDescriptor, NlmeNetworkDiscoveryConfirm};
use management::frame::{CommandHeader, DataHeader, SentCommand, SentFrame};
use management::{
    EndDeviceTimeoutResponse, KeepaliveAnswer, LeavingDevice, NegotiationAnswer, NlmeJoinConfirm,
    NlmeJoinStatus, NlmeLeaveIndication, NlmeNwkStatusIndication, PollAnswer, RejoinResponse,
    ScanRange, SendAnswer, Signals,
};
use nib::{DeviceType, MAX_NEIGBOUR_TABLE, NeighborTable, Nib, NwkNeighbor};
use nlme::{Nlme, Transmission};
use node::State;
use operation::{AssociateRequest, Note, RadioRequest, Refusal, Step};
use supervision::TransmitFailure;
use text::writer::Writer;
use trace_calls::{Answered, Said, Session, Turn};
use trace_lines::{Field, MAX_PAGE_BYTES, Word, put_line};

// The bytes of the buffer that a line's answer is written into: a turn prints at most 38 lines of at most 420 bytes, 15,960 in all, and this is the next power
// of two.
pub const TURN_BYTES: usize = 16384;

// The session after the lines so far, how many they were, whether the last of them was of the format, and how many bytes it printed.
#[derive(Clone, Copy)]
pub struct Run {
    // what stands between two lines
    pub session: Session,
    // how many lines were answered
    pub number: u32,
    // whether the last of them was of the format
    pub good: bool,
    // how many bytes it printed
    pub length: usize,
}

// What a node answers, as lines, each written behind those before it.

// A line of a word alone.
fn print_word(out: &mut Writer, word: Word)
    ensures { out.new ≡ with_text out.old (line_text (word_line word)) }
{
    put_line(out, &[Field::Named(word)])
}

fn print_refusal(out: &mut Writer, refusal: Refusal)
    ensures { out.new ≡ with_text out.old (line_text (refusal_line refusal)) }
{
    put_line(
        out,
        &[Field::Named(Word::Refused), Field::U8(refusal.number())],
    )
}

// What has a line of its own. No `Display`: these are types of other crates, and `write!` writes numbers by division.
trait Printed: Copy {
    // the fields of its line
    ghost line: { Self → Line };

    fn print(self, out: &mut Writer)
        ensures { out.new ≡ with_text out.old (line_text (line self)) };
}

// What may be there; nothing where it isn't.
#[tactic(auto, using(text::proofs::Written::in_turn))]
fn print_some<T: Printed>(out: &mut Writer, slot: Option<T>)
    ensures { out.new ≡ with_text out.old (some_text (option_map T.line slot)) }
{
    if let Some(x) = slot {
        x.print(out);
    }
}

// Each element of a list.
#[tactic(auto, using(crate::proofs::Lists::each_by_each))]
fn print_each<T: Printed>(out: &mut Writer, items: &[T])
    ensures { out.new ≡ with_text out.old (lines_text (each_line T.line items.now)) }
{
    for x in items {
        x.print(out);
    }
}

// The line of a node, from its attributes, sequence number, pending timeout request and timer.
fn print_nib(out: &mut Writer, nib: Nib, nwk_seq: u8, pending: u8, timer: u32)
    ensures { out.new ≡ with_text out.old (line_text (nib_line nib nwk_seq pending timer)) }
{
    put_line(
        out,
        &[
            Field::Named(Word::Node),
            Field::Short(nib.network_address.0),
            Field::Long(nib.ieee_address.0),
            Field::Long(nib.extended_panid.0),
            Field::Short(nib.panid.0),
            Field::U8(nib.update_id),
            Field::U8(nib.capability_information.0),
            Field::U8(nib.stack_profile),
            Field::U8(nib.parent_information),
            Field::U8(nib.end_device_timeout),
            Field::U8(nib.end_device_timeout_default),
            Field::Flag(nib.leave_request_allowed),
            Field::U8(nwk_seq),
            Field::U8(pending),
            Field::U32(timer),
        ],
    )
}

fn print_node(out: &mut Writer, nlme: Nlme)
    ensures { out.new ≡ with_text out.old (line_text (node_line nlme)) }
{
    let seq = nlme.nwk_seq;
    let pending = nlme.pending_timeout_request;
    let timer = nlme.parent_timer.remaining_ms;
    print_nib(out, nlme.nib, seq, pending, timer)
}

// No `From`, which would stand in `nib`: the number is that of a trace's line, which only traces know.
fn device_type_number(t: DeviceType) -> u8
    ensures { result ≡ device_type_number t }
{
    match t {
        DeviceType::Coordinator => 0,
        DeviceType::Router => 1,
        DeviceType::EndDevice => 2,
        DeviceType::Invalid(n) => n,
    }
}

impl Printed for NwkNeighbor {
    ghost line = { entry_line };

    fn print(self, out: &mut Writer) {
        put_line(
            out,
            &[
                Field::Named(Word::E),
                Field::Long(self.extended_address.0),
                Field::Short(self.network_address.0),
                Field::U8(device_type_number(self.device_type)),
                Field::Flag(self.rx_on_when_idle),
                Field::U16(self.end_device_configuration),
                Field::U8(self.relationship),
                Field::U8(self.lqi),
                Field::U8(self.outgoing_cost),
                Field::U8(self.age),
                Field::Flag(self.keepalive_received),
                Field::Long(self.extended_pan_id.0),
                Field::U8(self.logical_channel),
                Field::U8(self.depth),
                Field::Flag(self.permit_joining),
                Field::U8(self.potential_parent),
                Field::Flag(self.router_capacity),
                Field::Flag(self.end_device_capacity),
                Field::U8(self.update_id),
                Field::Short(self.pan_id.0),
            ],
        )
    }
}

impl Printed for TransmitFailure {
    ghost line = { failure_line };

    fn print(self, out: &mut Writer) {
        put_line(
            out,
            &[
                Field::Named(Word::F),
                Field::Short(self.address.0),
                Field::U8(self.count),
            ],
        )
    }
}

impl Printed for RejoinResponse {
    ghost line = { rejoin_response_line };

    fn print(self, out: &mut Writer) {
        put_line(
            out,
            &[
                Field::Named(Word::RejoinResponse),
                Field::Short(self.network_address.0),
                Field::U8(self.status),
            ],
        )
    }
}

impl Printed for EndDeviceTimeoutResponse {
    ghost line = { timeout_response_line };

    fn print(self, out: &mut Writer) {
        put_line(
            out,
            &[
                Field::Named(Word::TimeoutResponse),
                Field::U8(self.status),
                Field::U8(self.parent_information),
            ],
        )
    }
}

// No `From`, here and in `status_word`, `send_word`, `poll_word`, `negotiation_field` and `keepalive_word`: both types are of other crates.
fn device_field(device: LeavingDevice) -> Field
    ensures { result ≡ device_field device }
{
    match device {
        LeavingDevice::ThisDevice => Field::OrDash(None),
        LeavingDevice::NeighborByIeee(ieee) => Field::OrDash(Some(ieee.0)),
        LeavingDevice::NeighborByShort(address) => Field::Short(address.0),
    }
}

impl Printed for NlmeLeaveIndication {
    ghost line = { leave_line };

    fn print(self, out: &mut Writer) {
        put_line(
            out,
            &[
                Field::Named(Word::LeaveIndication),
                device_field(self.device),
                Field::Flag(self.rejoin),
            ],
        )
    }
}

impl Printed for NlmeNwkStatusIndication {
    ghost line = { status_line };

    fn print(self, out: &mut Writer) {
        put_line(
            out,
            &[
                Field::Named(Word::StatusIndication),
                Field::Short(self.network_address.0),
            ],
        )
    }
}

// The slots that are full, and the end of a state.
#[tactic(auto, using(crate::proofs::Lists::line_by_line))]
fn print_slots(out: &mut Writer, signals: Signals)
    ensures { out.new ≡ with_text out.old (lines_text (slot_lines signals)) }
{
    print_some(out, signals.rejoin_response);
    print_some(out, signals.timeout_response);
    print_some(out, signals.leave_indication);
    print_some(out, signals.nwk_status_indication);
    print_word(out, Word::End);
}

#[tactic(auto, using(text::proofs::Written::in_turn))]
fn print_reset(out: &mut Writer, reset: bool)
    ensures { out.new ≡ with_text out.old (some_text (reset_line reset)) }
{
    if reset {
        print_word(out, Word::Reset);
    }
}

impl Printed for Note {
    ghost line = { note_line };

    fn print(self, out: &mut Writer) {
        match self {
            Note::SetChannel(channel) => {
                put_line(out, &[Field::Named(Word::SetChannel), Field::U8(channel)])
            }
            Note::SetAddress(address) => {
                put_line(
                    out,
                    &[Field::Named(Word::SetAddress), Field::Short(address.0)],
                )
            }
        }
    }
}

fn print_scan(out: &mut Writer, range: ScanRange)
    ensures { out.new ≡ with_text out.old (line_text (scan_line range)) }
{
    put_line(
        out,
        &[
            Field::Named(Word::Scan),
            Field::U8(range.first),
            Field::U8(range.past),
            Field::U8(range.duration),
        ],
    )
}

fn print_associate(out: &mut Writer, request: AssociateRequest)
    ensures { out.new ≡ with_text out.old (line_text (associate_line request)) }
{
    let c = request.capabilities;
    put_line(
        out,
        &[
            Field::Named(Word::Associate),
            Field::U8(request.channel),
            Field::Short(request.pan_id.0),
            Field::Short(request.address.0),
            Field::Flag(c.full_function_device),
            Field::Flag(c.mains_power),
            Field::Flag(c.idle_receive),
            Field::Flag(c.frame_protection),
            Field::Flag(c.allocate_address),
        ],
    )
}

fn print_data(out: &mut Writer, t: Transmission, h: DataHeader)
    ensures { out.new ≡ with_text out.old (line_text (data_line t.pan_id t.address h)) }
{
    put_line(
        out,
        &[
            Field::Named(Word::Transmit),
            Field::Short(t.pan_id.0),
            Field::Short(t.address.0),
            Field::Named(Word::DataFrame),
            Field::Short(h.destination.0),
            Field::Short(h.source.0),
            Field::U8(h.sequence_number),
            Field::Flag(h.secure),
        ],
    )
}

// A command frame: its word, its header, and two fields that it carries. The header is handed on beside the transmission that holds it: there a match found it.
fn command_fields(
    t: Transmission,
    h: CommandHeader,
    word: Word,
    first: Field,
    second: Field,
) -> [Field; 12]
    ensures { result ≡ command_line t.pan_id t.address h word (first ∷ second ∷ []) }
{
    [
        Field::Named(Word::Transmit),
        Field::Short(t.pan_id.0),
        Field::Short(t.address.0),
        Field::Named(word),
        Field::Short(h.destination.0),
        Field::OrDash(h.destination_ieee.map(|ieee| ieee.0)),
        Field::Short(h.source.0),
        Field::Long(h.source_ieee.0),
        Field::U8(h.sequence_number),
        Field::Flag(h.secure),
        first,
        second,
    ]
}

// A command frame that carries one field.
fn print_request_frame(out: &mut Writer, t: Transmission, h: CommandHeader, word: Word, carried: u8)
    ensures { out.new ≡ with_text out.old (line_text (command_line t.pan_id t.address h word (Field.U8 carried ∷ []))) }
{
    let fields = command_fields(t, h, word, Field::U8(carried), Field::U8(0));
    put_line(out, &fields[..11])
}

fn print_command_frame(out: &mut Writer, t: Transmission, h: CommandHeader, command: SentCommand)
    ensures { out.new ≡ with_text out.old (line_text (command_frame_line t.pan_id t.address h command)) }
{
    match command {
        SentCommand::RejoinRequest(c) => print_request_frame(out, t, h, Word::RejoinRequest, c.0),
        SentCommand::TimeoutRequest(index) => {
            print_request_frame(out, t, h, Word::TimeoutRequest, index)
        }
        SentCommand::Leave(options) => {
            let rejoin = Field::Flag(options.rejoin);
            let children = Field::Flag(options.remove_children);
            let fields = command_fields(t, h, Word::Leave, rejoin, children);
            put_line(out, &fields)
        }
    }
}

#[tactic(auto, unfolding(crate::specs::Lines::transmit_line))]
fn print_transmit(out: &mut Writer, t: Transmission)
    ensures { out.new ≡ with_text out.old (line_text (transmit_line t.pan_id t.address t.frame)) }
{
    match t.frame {
        SentFrame::DataFrame(h) => print_data(out, t, h),
        SentFrame::CommandFrame(h, command) => print_command_frame(out, t, h, command),
    }
}

#[tactic(auto, unfolding(crate::specs::Lines::request_line))]
fn print_request(out: &mut Writer, request: RadioRequest)
    ensures { out.new ≡ with_text out.old (line_text (request_line request)) }
{
    match request {
        RadioRequest::Scan(range) => print_scan(out, range),
        RadioRequest::Associate(asked) => print_associate(out, asked),
        RadioRequest::Transmit(t) => print_transmit(out, t),
        RadioRequest::Poll(pan_id, address) => {
            put_line(
                out,
                &[
                    Field::Named(Word::Poll),
                    Field::Short(pan_id.0),
                    Field::Short(address.0),
                ],
            )
        }
        RadioRequest::Receive => print_word(out, Word::Receive),
    }
}

fn status_word(status: NlmeJoinStatus) -> Word
    ensures { result ≡ status_word status }
{
    match status {
        NlmeJoinStatus::Success => Word::Success,
        NlmeJoinStatus::InvalidRequest => Word::InvalidRequest,
        NlmeJoinStatus::NotPermitted => Word::NotPermitted,
        NlmeJoinStatus::NoNetworks => Word::NoNetworks,
        NlmeJoinStatus::PanAtCapacity => Word::PanAtCapacity,
        NlmeJoinStatus::PanAccessDenied => Word::PanAccessDenied,
        NlmeJoinStatus::MacError => Word::MacError,
    }
}

fn send_word(a: SendAnswer) -> Word
    ensures { result ≡ send_word a }
{
    match a {
        SendAnswer::SendOk => Word::Ok,
        SendAnswer::SendNotJoined => Word::NotJoined,
        SendAnswer::SendMacError => Word::MacError,
        SendAnswer::SendParentLinkFailure => Word::ParentLinkFailure,
    }
}

fn poll_word(a: PollAnswer) -> Word
    ensures { result ≡ poll_word a }
{
    match a {
        PollAnswer::PollData => Word::PolledData,
        PollAnswer::PollNothing => Word::PolledNothing,
        PollAnswer::PollNotJoined => Word::NotJoined,
        PollAnswer::PollMacError => Word::MacError,
        PollAnswer::PollUndecodable => Word::Undecodable,
    }
}

fn negotiation_field(a: NegotiationAnswer) -> Field
    ensures { result ≡ negotiation_field a }
{
    match a {
        NegotiationAnswer::Negotiated => Field::U8(1),
        NegotiationAnswer::NotNegotiated => Field::U8(0),
        NegotiationAnswer::NegotiationNotJoined => Field::Named(Word::NotJoined),
        NegotiationAnswer::NegotiationMacError => Field::Named(Word::MacError),
    }
}

fn keepalive_word(a: KeepaliveAnswer) -> Word
    ensures { result ≡ keepalive_word a }
{
    match a {
        KeepaliveAnswer::KeepaliveOk => Word::Ok,
        KeepaliveAnswer::KeepaliveParentLinkFailure => Word::ParentLinkFailure,
    }
}

fn print_confirm(out: &mut Writer, c: NlmeJoinConfirm)
    ensures { out.new ≡ with_text out.old (line_text (confirm_line c)) }
{
    put_line(
        out,
        &[
            Field::Named(Word::Confirm),
            Field::Named(status_word(c.status)),
            Field::Short(c.network_address.0),
            Field::Long(c.extended_pan_id.0),
            Field::U8(c.channel),
        ],
    )
}

// An answer's word, and what is answered.
fn print_answer(out: &mut Writer, word: Word, answer: Field)
    ensures { out.new ≡ with_text out.old (line_text (Field.Named word ∷ answer ∷ [])) }
{
    put_line(out, &[Field::Named(word), answer])
}

// What was taken, or that the slot was empty.
fn print_taken<T: Printed>(out: &mut Writer, slot: Option<T>)
    ensures { out.new ≡ with_text out.old (line_text (taken_line T.line slot)) }
{
    match slot {
        Some(x) => x.print(out),
        None => print_word(out, Word::Nothing),
    }
}

// The request, confirm, answer or refusal of a call, with the number of networks that a discovery found.
#[tactic(auto, using(text::proofs::Written::in_turn), unfolding(crate::specs::Lines::step_line))]
fn print_step(out: &mut Writer, step: Step, discovered: u8)
    ensures { out.new ≡ with_text out.old (some_text (step_line step discovered)) }
{
    match step {
        Step::Refused(refusal) => print_refusal(out, refusal),
        Step::Ask(request) => print_request(out, request),
        Step::Discovered => print_answer(out, Word::Discovered, Field::U8(discovered)),
        Step::DiscoveryFailed => print_word(out, Word::DiscoveryFailed),
        Step::Joined(confirm) => print_confirm(out, confirm),
        Step::Sent(a) => print_answer(out, Word::SendAnswer, Field::Named(send_word(a))),
        Step::Polled(a) => print_answer(out, Word::PollAnswer, Field::Named(poll_word(a))),
        Step::NegotiationOver(a) => print_answer(out, Word::Negotiated, negotiation_field(a)),
        Step::KeepaliveOver(a) => {
            print_answer(out, Word::KeepaliveAnswer, Field::Named(keepalive_word(a)))
        }
        Step::Expired(expired) => print_answer(out, Word::Expired, Field::Flag(expired)),
        Step::LeaveTaken(slot) => print_taken(out, slot),
        Step::StatusTaken(slot) => print_taken(out, slot),
        Step::PageWritten => {}
        Step::Done => print_word(out, Word::Done),
    }
}

impl Printed for NetworkDescriptor {
    ghost line = { descriptor_line };

    fn print(self, out: &mut Writer) {
        put_line(
            out,
            &[
                Field::Named(Word::D),
                Field::Long(self.extended_pan_id.0),
                Field::Short(self.pan_id.0),
                Field::U8(self.update_id),
                Field::U8(self.logical_channel),
                Field::U8(self.stack_profile),
                Field::U8(self.zigbee_version),
                Field::U8(self.beacon_order),
                Field::U8(self.superframe_order),
                Field::Flag(self.permit_joining),
                Field::Flag(self.router_capacity),
                Field::Flag(self.end_device_capacity),
            ],
        )
    }
}

// How many networks a discovery tells of.
fn network_count(networks: &Option<NlmeNetworkDiscoveryConfirm>) -> u8
    ensures { result ≡ network_count networks.now }
{
    networks.as_ref().map_or(0, |confirm| confirm.count)
}

// The networks that it found.
fn networks_of(networks: &Option<NlmeNetworkDiscoveryConfirm>) -> &[NetworkDescriptor]
    ensures value { result.now ≡ networks_of networks.now }
    ensures few { length result.now ≤ MAX_PAN_DESCRIPTOR_SIZE }
{
    match networks {
        None => &[],
        Some(confirm) => lists::in_use(&confirm.network_descriptor, confirm.count as usize),
    }
}

// An answer: its reset note, its note, its step, and the networks that were found.
#[tactic(auto, using(crate::proofs::Lists::line_by_line))]
fn print_told(out: &mut Writer, told: Answered)
    ensures value { out.new ≡ with_text out.old (lines_text (told_lines told)) }
    ensures few { length (told_lines told) ≤ 30 }
{
    print_reset(out, told.reset);
    print_some(out, told.note);
    print_step(out, told.step, network_count(&told.networks));
    print_each(out, networks_of(&told.networks));
}

// How many fields a line with one for each entry has at most: its word, and as many as a table has room for.
const ENTRY_FIELDS: usize = 1 + MAX_NEIGBOUR_TABLE as usize;

// The candidates' indexes, as many fields as there are.
fn print_candidates(out: &mut Writer, list: CandidateList)
    ensures { out.new ≡ with_text out.old (line_text (candidates_line (items_of list))) }
{
    let used = list.used();
    let mut fields = [Field::Named(Word::Candidates); ENTRY_FIELDS];
    for (i, index) in used.iter().enumerate() {
        fields[i + 1] = Field::U8(*index);
    }
    put_line(out, &fields[..used.len() + 1])
}

// The answer to a choice of candidates.
fn print_choice(out: &mut Writer, choice: Result<CandidateList, Refusal>)
    ensures { out.new ≡ with_text out.old (line_text (choice_line choice)) }
{
    match choice {
        Ok(list) => print_candidates(out, list),
        Err(refusal) => print_refusal(out, refusal),
    }
}

// When each entry was last heard, as many fields as there are entries.
fn print_last_heard(out: &mut Writer, table: NeighborTable)
    ensures { out.new ≡ with_text out.old (line_text (last_heard_line (entries_of table))) }
{
    let used = table.used();
    let mut fields = [Field::Named(Word::LastHeard); ENTRY_FIELDS];
    for (i, entry) in used.iter().enumerate() {
        fields[i + 1] = Field::U32(entry.last_heard);
    }
    put_line(out, &fields[..used.len() + 1])
}

// The line that says that a line is not of the format, with its number.
fn print_bad(out: &mut Writer, number: u32)
    ensures { out.new ≡ with_text out.old (line_text (bad_line number)) }
{
    put_line(out, &[Field::Named(Word::Bad), Field::U32(number)])
}

// The entries of a neighbour table.
#[tactic(auto, using(crate::proofs::Lists::line_by_line))]
fn print_table(out: &mut Writer, table: NeighborTable)
    ensures value { out.new ≡ with_text out.old (lines_text (each_line entry_line (entries_of table))) }
    ensures few { length (each_line entry_line (entries_of table)) ≤ MAX_NEIGBOUR_TABLE }
{
    print_each(out, table.used());
}

// What follows the entries of a state: the failure pairs, the slots that are full, and the end.
#[tactic(auto, using(crate::proofs::Lists::line_by_line))]
fn print_nlme(out: &mut Writer, nlme: Nlme)
    ensures value { out.new ≡ with_text out.old (lines_text (nlme_lines nlme)) }
    ensures few { length (nlme_lines nlme) ≤ 21 }
{
    print_each(out, nlme.transmit_failures.used());
    print_slots(out, nlme.signals);
}

// A state.
#[tactic(auto, using(crate::proofs::Lists::line_by_line))]
fn print_state(out: &mut Writer, state: State)
    ensures value { out.new ≡ with_text out.old (lines_text (state_lines state)) }
    ensures few { length (state_lines state) ≤ 38 }
{
    let nlme = state.control.nlme;
    print_node(out, nlme);
    print_table(out, state.table);
    print_nlme(out, nlme);
}

// The bytes that are lent for a page: no line of the format asks for more than 1,024.
fn lent_bytes(bytes: u16) -> usize
    ensures { result ≡ min bytes MAX_PAGE_BYTES }
{
    usize::from(bytes).min(MAX_PAGE_BYTES)
}

// Lends the start of some bytes for a page, and hands on the step that is answered.
fn lend_page(page: &mut [u8; MAX_PAGE_BYTES], state: State, bytes: u16) -> Step
    ensures step { result ≡ (page_answer bytes state).step }
    ensures page { page.new ≡ over page.old (page_bytes result (entries_of state.table)) }
{
    let lent = lent_bytes(bytes);
    state.write_neighbor_page(&mut page[..lent]).step
}

// A page, or the refusal where the call is turned down.
fn print_page(out: &mut Writer, state: State, bytes: u16)
    ensures { out.new ≡ with_text out.old (page_text bytes state) }
{
    let mut page = [0; MAX_PAGE_BYTES];
    let step = lend_page(&mut page, state, bytes);
    print_step(out, step, 0);
    if let Step::PageWritten = step {
        out.write(lists::in_use(&page, neighbor_page::PAGE_BYTES));
    }
}

// What is printed of a turn, which line `number` of the trace is.
#[tactic(auto, using(crate::proofs::Pages::said))]
fn print_turn(out: &mut Writer, number: u32, turn: Turn)
    ensures value { out.new ≡ with_text out.old (text_of number turn) }
    ensures short { length (text_of number turn) ≤ TURN_BYTES }
{
    match turn.said {
        Said::Bad => print_bad(out, number),
        Said::Nothing => {}
        Said::Told(told) => print_told(out, told),
        Said::Chosen(choice) => print_choice(out, choice),
        Said::Shown => print_state(out, turn.session.state),
        Said::Paged(bytes) => print_page(out, turn.session.state, bytes),
        Said::LastHeard => print_last_heard(out, turn.session.state.table),
    }
}

// All that a turn prints, from the start of a buffer, and how many bytes that is.
#[tactic(auto, using(crate::proofs::Lists::whole))]
fn print_whole(out: &mut [u8; TURN_BYTES], number: u32, turn: Turn) -> usize
    ensures { (result ≡ length (text_of number turn)) × (out.new ≡ over out.old (text_of number turn)) }
{
    let mut lines = Writer::new(out);
    print_turn(&mut lines, number, turn);
    lines.place()
}

// A line answered.

fn says_bad(said: Said) -> bool
    ensures { result ≡ says_bad said }
{
    matches!(said, Said::Bad)
}

// The call that a line says, made.
#[tactic(auto, unfolding(crate::specs::Trace::turn_of))]
fn turn_of(session: Session, line: &[u8]) -> Turn
    ensures { result ≡ turn_of line.now session }
{
    session.take(trace_lines::read_line(line).map(trace_input::call_of))
}

// Line numbers stop at the greatest.
fn number_after(number: u32) -> u32
    ensures { result ≡ number_after number }
{
    number.saturating_add(1)
}

impl Run {
    // Before the first line.
    pub fn new() -> Run
        ensures { result ≡ run_before }
    {
        Run {
            session: Session::new(),
            number: 0,
            good: true,
            length: 0,
        }
    }

    // Answers a line; what is printed is written at the start of a buffer.
    #[tactic(auto, unfolding(crate::specs::Trace::run_after, crate::specs::Trace::printed))]
    pub fn answer_line(self, line: &[u8], out: &mut [u8; TURN_BYTES]) -> Run
        ensures { (result ≡ run_after line.now self) × (out.new ≡ over out.old (printed line.now self)) }
    {
        let number = number_after(self.number);
        let turn = turn_of(self.session, line);
        let length = print_whole(out, number, turn);
        let session = turn.session;
        let good = !says_bad(turn.said);
        Run {
            session,
            number,
            good,
            length,
        }
    }
}
