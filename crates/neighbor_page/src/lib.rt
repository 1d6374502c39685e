// The neighbour page for the depot screen: the neighbour table as text of exact width, written into a lent buffer.
#![tactic(auto)]

ghost use Rattle.std.specs.Prelude.{◌≡◌, ◌++◌, not, min, length};
ghost use Rattle.std.proofs.lemmas.List.Edits.{sets};
ghost use Rattle.nib.specs.Neighbors.{entries_of};
ghost use Rattle.text.specs.Writer.{with_text};
ghost use Rattle.neighbor_page.specs.Private.{hex_column, number_column};
ghost use Rattle.neighbor_page.specs.Page.{first_row, entry_row, blank_row, slot_row, rows, too_short, written};

use nib::{MAX_NEIGBOUR_TABLE, NeighborTable, NwkNeighbor};
use text::writer::Writer;

// The rows of a page: the first, and one for each slot of the table.
const ROWS: usize = 17;

// The bytes of a row: 47 characters and a line feed.
const ROW_BYTES: usize = 48;

// The bytes of a page.
pub const PAGE_BYTES: usize = 816;

// The row with the columns' letters.
fn first_row() -> [u8; ROW_BYTES]
    ensures { result ≡ first_row }
{
    *b"i  a    e                p    c   d   l   k r  \n"
}

// The row of an unused slot.
#[tactic(auto, unfolding(crate::specs::Page::blank_row))]
fn blank_row() -> [u8; ROW_BYTES]
    ensures { result ≡ blank_row }
{
    let mut blank = [b' '; ROW_BYTES];
    blank[ROW_BYTES - 1] = b'\n';
    blank
}

// Writes a column with a decimal number, right-aligned, and the byte behind it.
#[tactic(auto, using(text::proofs::Written::in_turn), unfolding(crate::specs::Private::number_column))]
fn write_number(row: &mut Writer, n: u8, width: usize, end: u8)
    ensures { row.new ≡ with_text row.old (number_column (min width 10) n end) }
{
    row.write_decimal_right(u32::from(n), width);
    row.write(&[end]);
}

// Writes a column with an address or an id in so many hexadecimal digits, and the space behind it.
#[tactic(auto, using(text::proofs::Written::in_turn), unfolding(crate::specs::Private::hex_column))]
fn write_id(row: &mut Writer, n: u64, digits: usize)
    ensures { row.new ≡ with_text row.old (hex_column (min digits 16) n) }
{
    row.write_hex(n, digits);
    row.write(b" ");
}

// Writes the columns with an entry's address and ids, each with the space behind it.
#[tactic(auto, using(text::proofs::Written::in_turn))]
fn write_ids(row: &mut Writer, e: &NwkNeighbor)
    ensures { row.new ≡ with_text row.old (hex_column 4 e.now.network_address.0 ++ (hex_column 16 e.now.extended_pan_id.0 ++ hex_column 4 e.now.pan_id.0)) }
{
    write_id(row, u64::from(e.network_address.0), 4);
    write_id(row, e.extended_pan_id.0, 16);
    write_id(row, u64::from(e.pan_id.0), 4);
}

// Writes the row of an entry at an index of the table.
fn write_entry(row: &mut Writer, index: u8, e: &NwkNeighbor)
    ensures { row.new ≡ with_text row.old (entry_row index e.now) }
{
    write_number(row, index, 2, b' ');
    write_ids(row, e);
    write_number(row, e.logical_channel, 3, b' ');
    write_number(row, e.depth, 3, b' ');
    write_number(row, e.lqi, 3, b' ');
    write_number(row, nib::link_cost_from_lqi(e.lqi), 1, b' ');
    write_number(row, e.relationship, 3, b'\n');
}

// The row of an entry at an index of the table.
#[tactic(auto, unfolding(text::specs::Writer::with_text), using(crate::proofs::Form::filled, crate::proofs::Form::entry_48))]
fn entry_row(index: u8, e: NwkNeighbor) -> [u8; ROW_BYTES]
    ensures { result ≡ entry_row index e }
{
    let mut row = [0; ROW_BYTES];
    write_entry(&mut Writer::new(&mut row), index, &e);
    row
}

// The row of a slot of the table.
#[tactic(auto, unfolding(crate::specs::Page::slot_row))]
fn slot_row(index: u8, slot: Option<NwkNeighbor>) -> [u8; ROW_BYTES]
    ensures { result ≡ slot_row index slot }
{
    match slot {
        None => blank_row(),
        Some(e) => entry_row(index, e),
    }
}

// All rows, gathered before anything is written.
fn rows_of(table: NeighborTable) -> [[u8; ROW_BYTES]; ROWS]
    ensures { result ≡ rows (entries_of table) }
{
    let mut rows = [first_row(); ROWS];
    for i in 0..MAX_NEIGBOUR_TABLE {
        rows[i as usize + 1] = slot_row(i, table.get(i));
    }
    rows
}

// Writes a row at the start of its part of the page.
fn write_row(part: &mut [u8], row: &[u8; ROW_BYTES])
    ensures { part.new ≡ sets part.old 0 row.now }
{
    text::write(part, 0, row);
}

// Writes the page of a table at the start of a lent buffer, and says whether that was done: one shorter than a page stays as it is.
// Each row is lent its own part of the buffer. A `bool`, and no `Result`: one thing alone can be wrong, and who calls has a number of its own for it.
pub fn write_page(page: &mut [u8], table: NeighborTable) -> bool
    ensures { (result ≡ not (too_short (length page.old))) × (page.new ≡ written (entries_of table) page.old) }
{
    if page.len() < PAGE_BYTES {
        return false;
    }
    let rows = rows_of(table);
    for (k, row) in rows.iter().enumerate() {
        write_row(&mut page[k * ROW_BYTES..], row);
    }
    true
}
