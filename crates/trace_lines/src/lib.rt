// Lines of a trace: read from a slice as a kind and numbers, and written into a lent buffer from typed fields.
#![tactic(auto)]

ghost use Rattle.std.specs.Prelude.{◌≡◌, ◌++◌, cond, ◌≤◌, length, map};
ghost use Rattle.std.proofs.lemmas.List.Edits.{sets};
ghost use Rattle.lists.specs.Lists.{over};
ghost use Rattle.text.specs.Text.{bytes, fields, same_text, hex_of, hex_text};
ghost use Rattle.text.specs.Writer.{with_text};
ghost use Rattle.trace_lines.specs.TraceLines.{word_of, letters_of, greatest, number_of, is_dash, line_of, word_text, or_dash_text, flag_text, field_text, joined, line_text};
ghost use Rattle.trace_lines.specs.Private.{read_as, read_kind, tab_before};

use text::writer::Writer;

// The kinds of lines that are read.
#[derive(Clone, Copy)]
pub enum InputKind {
    // `e`: a neighbour entry
    Entry,
    // `b`: a beacon whose sender has a short address
    ShortBeacon,
    // `b`: a beacon whose sender has an IEEE address alone
    ExtendedBeacon,
    // `nodata`: a poll or receive brought nothing
    NoData,
    // `sent`: the frame was sent
    Sent,
    // `tick`: milliseconds have passed
    Tick,
    // `node`: a state begins
    Node,
    // `scan`: a scan is over, and its beacons follow
    Scan,
    // `sendfail`: the frame was not sent
    SendFailed,
    // `scanfail`: the scan failed
    ScanFailed,
    // `pollfail`: the poll or receive failed
    PollFailed,
    // `associate`: a candidate answered
    Associated,
    // `associatefail`: the radio failed
    AssociateFailed,
    // `undecodable`: a frame came that can't be decoded
    Undecodable,
    // `data`: a data frame came
    Data,
    // `rejoinresponse`: a rejoin response came
    RejoinResponse,
    // `timeoutresponse`: a timeout response came
    TimeoutResponse,
    // `leave`: a leave command came
    Leave,
    // `command`: another command came
    Command,
    // `otherframe`: a frame of another kind came
    OtherFrame,
    // `discovery`: a discovery starts
    Discovery,
    // `join`: a join or rejoin starts
    Join,
    // `send`: a data send starts
    Send,
    // `poll`: a poll starts
    Poll,
    // `receive`: a receive starts
    Receive,
    // `negotiate`: a negotiation starts
    Negotiate,
    // `keepalive`: a keepalive starts
    Keepalive,
    // `takeleave`: the leave indication is taken
    TakeLeave,
    // `takestatus`: the status indication is taken
    TakeStatus,
    // `candidates`: candidates are chosen
    Candidates,
    // `state`: the state is printed
    State,
    // `f`: a failure pair
    Pair,
    // `page`: the neighbour page is printed
    Page,
    // `refresh`: the parent's timer is restarted
    Refresh,
    // `h`: when the entry of the line above was last heard
    Heard,
    // `clock`: the caller's clock is set
    Clock,
    // `lastheard`: the last-heard times are printed
    LastHeard,
}

// All kinds, in the order in which a line is tried.
const KINDS: [InputKind; 37] = [
    InputKind::Entry,
    InputKind::ShortBeacon,
    InputKind::ExtendedBeacon,
    InputKind::NoData,
    InputKind::Sent,
    InputKind::Tick,
    InputKind::Node,
    InputKind::Scan,
    InputKind::SendFailed,
    InputKind::ScanFailed,
    InputKind::PollFailed,
    InputKind::Associated,
    InputKind::AssociateFailed,
    InputKind::Undecodable,
    InputKind::Data,
    InputKind::RejoinResponse,
    InputKind::TimeoutResponse,
    InputKind::Leave,
    InputKind::Command,
    InputKind::OtherFrame,
    InputKind::Discovery,
    InputKind::Join,
    InputKind::Send,
    InputKind::Poll,
    InputKind::Receive,
    InputKind::Negotiate,
    InputKind::Keepalive,
    InputKind::TakeLeave,
    InputKind::TakeStatus,
    InputKind::Candidates,
    InputKind::State,
    InputKind::Pair,
    InputKind::Page,
    InputKind::Refresh,
    InputKind::Heard,
    InputKind::Clock,
    InputKind::LastHeard,
];

// How many fields a line has at most, its word included.
const MAX_FIELDS: usize = 20;

// How many bytes a line that is written has at most: 20 fields of 20 bytes, a tab between each two, and the line feed.
const MAX_LINE_BYTES: usize = 420;

// The greatest length of a lent buffer that a `page` line tells of: the format's bound, over the 816 bytes that a page fills, so that longer buffers come too.
pub const MAX_PAGE_BYTES: usize = 1024;

// A line that is read: its kind and the numbers in its fields. `dash` says that the field for an IEEE address is `-`. It is a flag, since one field of a line
// at most may be a dash: as options all twenty numbers would be.
#[derive(Clone, Copy)]
pub struct InputLine {
    // which line it is
    pub kind: InputKind,
    // the field for an IEEE address is `-`
    pub dash: bool,
    // number i is that of field i, from 1; 0 where a field has none
    pub numbers: [u64; MAX_FIELDS],
}

impl InputKind {
    // The word that stands in the first field.
    fn word(self) -> &'static [u8]
        ensures { result.now ≡ word_of self }
    {
        match self {
            InputKind::Entry => b"e",
            InputKind::ShortBeacon => b"b",
            InputKind::ExtendedBeacon => b"b",
            InputKind::NoData => b"nodata",
            InputKind::Sent => b"sent",
            InputKind::Tick => b"tick",
            InputKind::Node => b"node",
            InputKind::Scan => b"scan",
            InputKind::SendFailed => b"sendfail",
            InputKind::ScanFailed => b"scanfail",
            InputKind::PollFailed => b"pollfail",
            InputKind::Associated => b"associate",
            InputKind::AssociateFailed => b"associatefail",
            InputKind::Undecodable => b"undecodable",
            InputKind::Data => b"data",
            InputKind::RejoinResponse => b"rejoinresponse",
            InputKind::TimeoutResponse => b"timeoutresponse",
            InputKind::Leave => b"leave",
            InputKind::Command => b"command",
            InputKind::OtherFrame => b"otherframe",
            InputKind::Discovery => b"discovery",
            InputKind::Join => b"join",
            InputKind::Send => b"send",
            InputKind::Poll => b"poll",
            InputKind::Receive => b"receive",
            InputKind::Negotiate => b"negotiate",
            InputKind::Keepalive => b"keepalive",
            InputKind::TakeLeave => b"takeleave",
            InputKind::TakeStatus => b"takestatus",
            InputKind::Candidates => b"candidates",
            InputKind::State => b"state",
            InputKind::Pair => b"f",
            InputKind::Page => b"page",
            InputKind::Refresh => b"refresh",
            InputKind::Heard => b"h",
            InputKind::Clock => b"clock",
            InputKind::LastHeard => b"lastheard",
        }
    }

    // A letter for each further field: what stands in it. No enum of forms: by letters a kind is one line, by variants as many lines as it has fields, up to
    // 19.
    fn letters(self) -> &'static [u8]
        ensures value { result.now ≡ letters_of self }
        ensures few { length result.now ≤ 19 }
    {
        match self {
            InputKind::Entry => b"G4bfsbbbbfGbbfbffb4",
            InputKind::ShortBeacon => b"b424Gfffnbbnnnn",
            InputKind::ExtendedBeacon => b"b43GGfffnbbnnnn",
            InputKind::Tick => b"m",
            InputKind::Node => b"4GG4bbbbbbfbbm",
            InputKind::Scan => b"m",
            InputKind::Associated => b"b4G",
            InputKind::Data => b"4o",
            InputKind::RejoinResponse => b"4o4b",
            InputKind::TimeoutResponse => b"4obb",
            InputKind::Leave => b"4o4fff",
            InputKind::Command => b"4o",
            InputKind::Discovery => b"bbb",
            InputKind::Join => b"kGbfbbb",
            InputKind::Send => b"4f",
            InputKind::Candidates => b"Gff",
            InputKind::Pair => b"4b",
            InputKind::Page => b"p",
            InputKind::Heard => b"m",
            InputKind::Clock => b"m",
            _ => b"",
        }
    }
}

// The greatest decimal number of a letter.
fn greatest(letter: u8) -> u32
    ensures { result ≡ greatest letter }
{
    match letter {
        b'f' => 1,
        b'k' => 3,
        b'n' => 15,
        b'b' => 255,
        b'p' => MAX_PAGE_BYTES as u32,
        b's' => 65535,
        _ => 4294967295,
    }
}

// The number of an IEEE address, and 0 for the dash that stands for none.
fn read_or_dash(f: &[u8]) -> Option<u64>
    ensures { result ≡ cond (same_text f.now (bytes "-")) (Some 0) (hex_of 16 f.now) }
{
    if f == b"-".as_slice() {
        Some(0)
    } else {
        text::hex(f, 16)
    }
}

// The number in a field, by its letter.
#[tactic(auto, unfolding(crate::specs::TraceLines::number_of))]
fn read_number(letter: u8, f: &[u8]) -> Option<u64>
    ensures { result ≡ number_of letter f.now }
{
    match letter {
        b'4' => text::hex(f, 4),
        b'G' => text::hex(f, 16),
        b'o' => read_or_dash(f),
        b'2' => (f == b"2".as_slice()).then_some(2),
        b'3' => (f == b"3".as_slice()).then_some(3),
        _ => text::decimal(f, greatest(letter)),
    }
}

// Whether a field that can be a dash is one.
fn is_dash(letter: u8, f: &[u8]) -> bool
    ensures { result ≡ is_dash letter f.now }
{
    letter == b'o' && f == b"-".as_slice()
}

// The line by the letters of a kind, or none where they don't fit its further fields.
fn read_as(kind: InputKind, line: &[u8]) -> Option<InputLine>
    ensures { result ≡ read_as kind (fields line.now) }
{
    let letters = kind.letters();
    if text::part_count(line, b'\t') != letters.len() + 1 {
        return None;
    }
    let further = line.split(|b| *b == b'\t').skip(1);
    let mut numbers = [0u64; MAX_FIELDS];
    let mut dash = false;
    for (i, (f, letter)) in further.zip(letters).enumerate() {
        numbers[i + 1] = read_number(*letter, f)?;
        dash |= is_dash(*letter, f);
    }
    Some(InputLine {
        kind,
        dash,
        numbers,
    })
}

// The line by a kind, or none where it doesn't fit.
#[tactic(auto, unfolding(crate::specs::TraceLines::fits_kind))]
fn read_kind(kind: InputKind, line: &[u8]) -> Option<InputLine>
    ensures { result ≡ read_kind kind (fields line.now) }
{
    if text::field(line, 0) == kind.word() {
        return read_as(kind, line);
    }
    None
}

// The kind of a line and the numbers in its fields, by the first kind that fits; none where the line is none of a trace.
pub fn read_line(line: &[u8]) -> Option<InputLine>
    ensures { result ≡ line_of line.now }
{
    KINDS.iter().find_map(|kind| read_kind(*kind, line))
}

// The words that are written.
#[derive(Clone, Copy)]
pub enum Word {
    E,
    Node,
    F,
    Refused,
    Scan,
    Associate,
    Transmit,
    Poll,
    Receive,
    SetChannel,
    SetAddress,
    Reset,
    Discovered,
    D,
    DiscoveryFailed,
    Confirm,
    SendAnswer,
    PollAnswer,
    Negotiated,
    KeepaliveAnswer,
    Expired,
    LeaveIndication,
    StatusIndication,
    Nothing,
    Candidates,
    RejoinResponse,
    TimeoutResponse,
    End,
    DataFrame,
    RejoinRequest,
    TimeoutRequest,
    Leave,
    Success,
    InvalidRequest,
    NotPermitted,
    NoNetworks,
    PanAtCapacity,
    PanAccessDenied,
    MacError,
    Ok,
    NotJoined,
    ParentLinkFailure,
    PolledData,
    PolledNothing,
    Undecodable,
    Bad,
    Done,
    LastHeard,
}

// A field of a line that is written: a word; 4 hexadecimal digits, 16, or 16 or a dash; a flag, 0 or 1; or a decimal number of a type.
#[derive(Clone, Copy)]
pub enum Field {
    // a word
    Named(Word),
    // 4 hexadecimal digits
    Short(u16),
    // 16 hexadecimal digits
    Long(u64),
    // 16 hexadecimal digits, or a dash for none
    OrDash(Option<u64>),
    // 1 or 0
    Flag(bool),
    // a decimal number
    U8(u8),
    // a decimal number
    U16(u16),
    // a decimal number
    U32(u32),
}

impl Word {
    // The word's text.
    fn text(self) -> &'static [u8]
        ensures { result.now ≡ word_text self }
    {
        match self {
            Word::E => b"e",
            Word::Node => b"node",
            Word::F => b"f",
            Word::Refused => b"refused",
            Word::Scan => b"scan",
            Word::Associate => b"associate",
            Word::Transmit => b"transmit",
            Word::Poll => b"poll",
            Word::Receive => b"receive",
            Word::SetChannel => b"setchannel",
            Word::SetAddress => b"setaddress",
            Word::Reset => b"reset",
            Word::Discovered => b"discovered",
            Word::D => b"d",
            Word::DiscoveryFailed => b"discoveryfailed",
            Word::Confirm => b"confirm",
            Word::SendAnswer => b"sendanswer",
            Word::PollAnswer => b"pollanswer",
            Word::Negotiated => b"negotiated",
            Word::KeepaliveAnswer => b"keepaliveanswer",
            Word::Expired => b"expired",
            Word::LeaveIndication => b"leaveindication",
            Word::StatusIndication => b"statusindication",
            Word::Nothing => b"nothing",
            Word::Candidates => b"candidates",
            Word::RejoinResponse => b"rejoinresponse",
            Word::TimeoutResponse => b"timeoutresponse",
            Word::End => b"end",
            Word::DataFrame => b"data",
            Word::RejoinRequest => b"rejoinrequest",
            Word::TimeoutRequest => b"timeoutrequest",
            Word::Leave => b"leave",
            Word::Success => b"Success",
            Word::InvalidRequest => b"InvalidRequest",
            Word::NotPermitted => b"NotPermitted",
            Word::NoNetworks => b"NoNetworks",
            Word::PanAtCapacity => b"PanAtCapacity",
            Word::PanAccessDenied => b"PanAccessDenied",
            Word::MacError => b"MacError",
            Word::Ok => b"Ok",
            Word::NotJoined => b"NotJoined",
            Word::ParentLinkFailure => b"ParentLinkFailure",
            Word::PolledData => b"Data",
            Word::PolledNothing => b"Nothing",
            Word::Undecodable => b"Undecodable",
            Word::Bad => b"bad",
            Word::Done => b"done",
            Word::LastHeard => b"lastheard",
        }
    }
}

// Writes an IEEE address, or the dash that stands for none.
fn write_or_dash(out: &mut Writer, n: Option<u64>)
    ensures { out.new ≡ with_text out.old (or_dash_text n) }
{
    match n {
        None => out.write(b"-"),
        Some(n) => out.write_hex(n, 16),
    }
}

// Writes a flag: 1 or 0.
fn write_flag(out: &mut Writer, flag: bool)
    ensures { out.new ≡ with_text out.old (flag_text flag) }
{
    out.write(if flag { b"1" } else { b"0" });
}

// Writes a field.
fn write_field(out: &mut Writer, field: Field)
    ensures { out.new ≡ with_text out.old (field_text field) }
{
    match field {
        Field::Named(word) => out.write(word.text()),
        Field::Short(n) => out.write_hex(u64::from(n), 4),
        Field::Long(n) => out.write_hex(n, 16),
        Field::OrDash(n) => write_or_dash(out, n),
        Field::Flag(flag) => write_flag(out, flag),
        Field::U8(n) => out.write_decimal(u32::from(n)),
        Field::U16(n) => out.write_decimal(u32::from(n)),
        Field::U32(n) => out.write_decimal(n),
    }
}

// Writes the tab before field i; the first field has none.
#[tactic(auto, using(text::proofs::Written::in_turn))]
fn write_tab(out: &mut Writer, i: usize)
    ensures { out.new ≡ with_text out.old (tab_before i) }
{
    if i == 0 {
        return;
    }
    out.write(b"\t");
}

// Writes the fields of a line.
#[tactic(auto, using(crate::proofs::Texts::field_by_field), unfolding(crate::specs::TraceLines::joined))]
fn write_fields(out: &mut Writer, line: &[Field])
    ensures { out.new ≡ with_text out.old (joined (map field_text line.now)) }
{
    for (i, field) in line.iter().enumerate() {
        write_tab(out, i);
        write_field(out, *field);
    }
}

// Writes a line behind what is written, as far as it fits. A line has at most 20 fields, and so at most 420 bytes; no more are written.
#[tactic(auto, unfolding(crate::specs::TraceLines::line_text), using(text::proofs::Written::in_turn))]
pub fn put_line(out: &mut Writer, line: &[Field])
    ensures { out.new ≡ with_text out.old (line_text line.now) }
{
    write_fields(out, lists::in_use(line, MAX_FIELDS));
    out.write(b"\n");
}

// Writes a line at the start of bytes that are enough for any, and returns its length.
#[tactic(auto, using(crate::proofs::Texts::by_itself))]
fn fill_line(bytes: &mut [u8; MAX_LINE_BYTES], line: &[Field]) -> usize
    ensures { (result ≡ length (line_text line.now)) × (bytes.new ≡ over bytes.old (line_text line.now)) }
{
    let mut out = Writer::new(bytes);
    put_line(&mut out, line);
    out.place()
}

// Writes a line at a place of a buffer, as far as it fits, and returns its length: that of all the line, which `put_line` does not give.
#[tactic(auto, using(crate::proofs::Texts::by_itself))]
pub fn write_line(out: &mut [u8], at: u16, line: &[Field]) -> usize
    ensures { (result ≡ length (line_text line.now)) × (out.new ≡ sets out.old at (line_text line.now)) }
{
    let mut bytes = [0; MAX_LINE_BYTES];
    let length = fill_line(&mut bytes, line);
    text::write(out, usize::from(at), &bytes[..length])
}
