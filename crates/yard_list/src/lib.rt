// The yard list: a request and neighbour entries read as lines of text, and the candidates written as lines of text.
#![tactic(auto)]

ghost use Rattle.std.specs.Prelude.{◌≡◌, [], ◌+◌, ◌-◌, ◌≤◌, ◌<◌, eqb, length, take, drop, get_or};
ghost use Rattle.lists.specs.Lists.{over};
ghost use Rattle.nib.specs.Neighbors.{entries_of, table_of};
ghost use Rattle.candidates.specs.Candidates.{list_of, items_of};
ghost use Rattle.text.specs.Text.{parts, fields, decimal_text, hex_text};
ghost use Rattle.text.specs.Writer.{with_text};
ghost use Rattle.yard_list.specs.Private.{InTable};
ghost use Rattle.yard_list.specs.YardList.{is_good, good_from, entries_in, request_candidates, column, row_of, rows_from, list_text, yard_text};

use candidates::CandidateList;
use nib::{ExtendedPanId, MAX_NEIGBOUR_TABLE, NeighborTable, NwkNeighbor};
use text::form::{self, Form};
use text::writer::Writer;

// How many entries a list has at most: as many as a neighbour table.
const MAX_ENTRIES: usize = MAX_NEIGBOUR_TABLE as usize;

// The bytes of the buffer that a list is written into: a list has at most 338, of a header and 16 lines, and so there is no buffer that is too short.
pub const LIST_BYTES: usize = 512;

// The forms of the fields of line 1.
const REQUEST: [Form<7>; 5] = [
    Form::Word(*b"request"),
    Form::Hex(16), // extended PAN id
    Form::Decimal(1), // role
    Form::Decimal(1), // permit wanted
    Form::Decimal(255), // stack profile
];

// Whether a line with k lines before it is good.
#[tactic(auto, unfolding(crate::specs::YardList::is_good))]
fn is_good(line: &[u8], k: usize) -> bool
    ensures { result ≡ is_good k line.now }
{
    if k == 0 {
        return form::is_line(line, &REQUEST);
    }
    if MAX_ENTRIES < k {
        return false;
    }
    neighbor_line::is_entry(line)
}

// How many of the first `ended` lines are good, up to the first that is not. `input` and `ended` go together here and in two more, and no struct: `ended` is
// counted once, where the three are called.
fn good_lines(input: &[u8], ended: usize) -> usize
    ensures { result ≡ good_from 0 (take ended (parts 10 input.now)) }
{
    input
        .split(|b| *b == b'\n')
        .take(ended)
        .enumerate()
        .take_while(|(k, line)| is_good(line, *k))
        .count()
}

// The table of the entries of `count` lines after the first.
fn read_table(input: &[u8], count: usize) -> NeighborTable
    requires { count ≤ MAX_NEIGBOUR_TABLE }
    ensures { result ≡ table_of (entries_in (take count (drop 1 (parts 10 input.now)))) }
{
    input
        .split(|b| *b == b'\n')
        .skip(1)
        .take(count)
        .fold(NeighborTable::new(), |table, line| {
            table.push(neighbor_line::read_entry(line))
        })
}

// The candidates of a request among the entries of a table.
#[tactic(auto, unfolding(crate::specs::YardList::request_candidates))]
fn request_candidates(line: &[u8], table: NeighborTable) -> CandidateList
    ensures { result ≡ list_of (request_candidates (fields line.now) (entries_of table)) }
{
    let stack_profile = form::byte_at(line, 4);
    let extended_pan_id = ExtendedPanId(form::hex_at(line, 16, 1));
    let join_as_router = form::flag_at(line, 2);
    let require_permit_joining = form::flag_at(line, 3);
    candidates::select_candidates(
        table,
        stack_profile,
        extended_pan_id,
        join_as_router,
        require_permit_joining,
    )
}

// Writes a column with a number.
#[tactic(auto, using(text::proofs::Written::in_turn))]
fn write_number(out: &mut Writer, n: u8, end: u8)
    ensures { out.new ≡ with_text out.old (column (decimal_text n) end) }
{
    out.write_decimal(u32::from(n));
    out.write(&[end]);
}

// Writes a column with an address.
#[tactic(auto, using(text::proofs::Written::in_turn))]
fn write_address(out: &mut Writer, address: u16)
    ensures { out.new ≡ with_text out.old (column (hex_text 4 address) 9) }
{
    out.write_hex(u64::from(address), 4);
    out.write(b"\t");
}

// Writes a candidate's line.
#[tactic(auto, using(text::proofs::Written::in_turn))]
fn write_row(out: &mut Writer, place: u8, index: u8, e: NwkNeighbor)
    ensures { out.new ≡ with_text out.old (row_of e place index) }
{
    write_number(out, place, b'\t');
    write_number(out, index, b'\t');
    write_address(out, e.network_address.0);
    write_number(out, e.logical_channel, b'\t');
    write_number(out, e.depth, b'\n');
}

// Writes a line for each candidate.
#[tactic(auto, using(text::proofs::Written::in_turn, crate::proofs::Rows::rows_next))]
fn write_rows(out: &mut Writer, table: NeighborTable, list: CandidateList)
    requires { InTable table list }
    ensures { out.new ≡ with_text out.old (rows_from (entries_of table) 1 (items_of list)) }
{
    let entries = table.used();
    for (i, index) in list.used().iter().enumerate() {
        write_row(out, i as u8 + 1, *index, entries[*index as usize]);
    }
}

// Writes the header and the candidates of an input whose first `ended` lines are good.
#[tactic(auto, using(crate::proofs::Rows::in_table))]
fn write_list(out: &mut Writer, input: &[u8], ended: usize)
    requires { (0 < ended) × (ended ≤ 17) × (ended < length (parts 10 input.now)) }
    ensures { out.new ≡ with_text out.old (list_text (take ended (parts 10 input.now))) }
{
    let table = read_table(input, ended - 1);
    let list = request_candidates(text::part(input, b'\n', 0), table);
    out.write(b"place\tindex\taddress\tchannel\tdepth\n");
    write_rows(out, table, list);
}

// Whether nothing stands after the last line feed.
fn has_no_rest(input: &[u8], ended: usize) -> bool
    ensures { result ≡ eqb (length (get_or (parts 10 input.now) ended [])) 0 }
{
    text::part(input, b'\n', ended).is_empty()
}

// Writes the list, or the line that is bad.
#[tactic(auto, unfolding(crate::specs::YardList::yard_text), using(crate::proofs::Lines::some_part, crate::proofs::Lines::good_few))]
fn write_yard_list(out: &mut Writer, input: &[u8])
    ensures { out.new ≡ with_text out.old (yard_text input.now) }
{
    let ended = text::part_count(input, b'\n') - 1;
    let good = good_lines(input, ended);
    if good == 0 {
        return out.write_bad(1);
    }
    if good != ended {
        return out.write_bad(good as u32 + 1);
    }
    if !has_no_rest(input, ended) {
        return out.write_bad(good as u32 + 1);
    }
    write_list(out, input, ended);
}

// Writes the yard list of an input and returns its length, which is at most `LIST_BYTES`.
#[tactic(auto, unfolding(text::specs::Writer::with_text), using(text::proofs::Written::from_start, crate::proofs::Rows::yard_short))]
pub fn yard_list(input: &[u8], out: &mut [u8; LIST_BYTES]) -> usize
    ensures { (result ≡ length (yard_text input.now)) × (out.new ≡ over out.old (yard_text input.now)) }
{
    let mut list = Writer::new(out);
    write_yard_list(&mut list, input);
    list.place()
}
