// What calls read in the neighbour table and what they write to it.
ghost use Rattle.std.specs.Prelude.{◌≡◌, map, find, position, option_map};
ghost use Rattle.lists.specs.Lists.{first_index, change_at, change_first};
ghost use Rattle.nib.specs.Neighbors.{entries_of, entry_at, table_of};
ghost use Rattle.nib.specs.NeighborTable.{has_address, is_parent, known_ieee, ieee_number, seen_in, ieee_of, on_entries, learnt, renewed, marked, adopted, cleared, all_cleared, potential_cleared_at, retained};
ghost use Rattle.nib.specs.declared.NwkNeighbor.{NwkNeighbor};
ghost use Rattle.nib.specs.Private.{Changes};

use crate::{
    ExtendedPanId, IeeeAddress, NO_PAN_ID, NeighborTable, NwkNeighbor, ShortAddress, relationship,
};

// The index of the first entry with relationship PARENT.
fn parent_place(used: &[NwkNeighbor]) -> Option<usize>
    ensures { result ≡ position is_parent used.now }
{
    used.iter()
        .position(|e| e.relationship == relationship::PARENT)
}

// The index of the parent, the first entry with relationship PARENT, or the number of entries where there is none.
// A number and no `Option`: at the number of entries nothing is found and nothing is changed, so no caller tests which of the two it is.
pub fn parent_index(table: &NeighborTable) -> u8
    ensures { result ≡ first_index is_parent (entries_of table.now) }
{
    let used = table.used();
    parent_place(used).unwrap_or(used.len()) as u8
}

// The index of the first entry with a short address.
fn address_place(used: &[NwkNeighbor], address: ShortAddress) -> Option<usize>
    ensures { result ≡ position (has_address address.0) used.now }
{
    used.iter().position(|e| e.network_address == address)
}

// The first entry with a short address.
fn first_with(used: &[NwkNeighbor], address: ShortAddress) -> Option<&NwkNeighbor>
    ensures { option_map (λ e. e.now) result ≡ find (has_address address.0) used.now }
{
    used.iter().find(|e| e.network_address == address)
}

// The IEEE address of a neighbour, where it is known.
pub fn known_ieee(neighbor: Option<NwkNeighbor>) -> Option<IeeeAddress>
    ensures { result ≡ known_ieee neighbor }
{
    let ieee = neighbor?.extended_address;
    if ieee.0 == 0 { None } else { Some(ieee) }
}

// The IEEE address that is known of a short address.
pub fn neighbor_ieee_address(table: &NeighborTable, address: ShortAddress) -> Option<IeeeAddress>
    ensures { result ≡ ieee_of address.0 (entries_of table.now) }
{
    known_ieee(first_with(table.used(), address).copied())
}

// The IEEE address of a neighbour, 0 where there is none.
fn ieee_number(neighbor: Option<NwkNeighbor>) -> IeeeAddress
    ensures { result ≡ ieee_number neighbor }
{
    neighbor.map_or(IeeeAddress(0), |e| e.extended_address)
}

// The entry at an index as commands are addressed to it: with the IEEE address of the first entry with its short address, and without the time at which it was
// last heard, which no decision is to read.
pub fn seen_at(table: &NeighborTable, index: u8) -> Option<NwkNeighbor>
    ensures { result ≡ seen_in (entries_of table.now) (entry_at (entries_of table.now) index) }
{
    let e = table.get(index)?;
    let first = first_with(table.used(), e.network_address).copied();
    let ieee = ieee_number(first);
    Some(NwkNeighbor {
        extended_address: ieee,
        last_heard: 0,
        ..e
    })
}

// The table with the entry at an index changed, or as it is where the index is past the entries in use.
fn change_at<F: FnOnce(&mut NwkNeighbor)>(
    mut table: NeighborTable,
    index: u8,
    change: F,
) -> NeighborTable
    requires { F.IsAlwaysCallable change }
    ensures { (f : NwkNeighbor → NwkNeighbor) → Changes (F.post change) f → result ≡ on_entries (change_at index f) table }
{
    if table.len() <= index {
        return table;
    }
    let at = index as usize;
    change(&mut table.entries[at]);
    table
}

// The table with every entry in use changed.
fn change_all<F: Fn(&mut NwkNeighbor)>(mut table: NeighborTable, change: F) -> NeighborTable
    requires { F.IsAlwaysCallable change }
    ensures { (f : NwkNeighbor → NwkNeighbor) → Changes (F.post change) f → result ≡ on_entries (map f) table }
{
    let used = table.len() as usize;
    // not `table.entries[..used].iter_mut()`: after that loop a proof knows nothing of the entries
    let (front, _) = table.entries.split_at_mut(used);
    for e in front.iter_mut() {
        change(e);
    }
    table
}

// The table with the first entry of a short address changed, or as it is where none has it.
fn change_first<F: FnOnce(&mut NwkNeighbor)>(
    table: NeighborTable,
    address: ShortAddress,
    change: F,
) -> NeighborTable
    requires { F.IsAlwaysCallable change }
    ensures { (f : NwkNeighbor → NwkNeighbor) → Changes (F.post change) f → result ≡ on_entries (change_first (has_address address.0) f) table }
{
    match address_place(table.used(), address) {
        Some(index) => change_at(table, index as u8, change),
        None => table,
    }
}

// The first entry with the source's short address gets the IEEE address that the frame reports.
pub fn learn_neighbor_ieee_address(
    table: NeighborTable,
    source: ShortAddress,
    ieee: IeeeAddress,
) -> NeighborTable
    ensures { result ≡ on_entries (learnt source.0 ieee) table }
{
    change_first(table, source, |e| e.extended_address = ieee)
}

// The first entry with the source's short address was heard now.
pub fn renew_last_heard(table: NeighborTable, source: ShortAddress, clock: u32) -> NeighborTable
    ensures { result ≡ on_entries (renewed source.0 clock) table }
{
    change_first(table, source, |e| e.last_heard = clock)
}

// The entry at an index is a parent.
pub fn mark_parent(table: NeighborTable, index: u8) -> NeighborTable
    ensures { result ≡ on_entries (marked index) table }
{
    change_at(table, index, |e| e.relationship = relationship::PARENT)
}

// The entry at an index is PARENT, and all others are NONE; an index past the table changes nothing.
pub fn adopt_parent(table: NeighborTable, index: u8) -> NeighborTable
    ensures { result ≡ on_entries (adopted index) table }
{
    if table.len() <= index {
        return table;
    }
    let none = change_all(table, |e| e.relationship = relationship::NONE);
    mark_parent(none, index)
}

// An entry loses its beacon fields; its PAN id becomes that of no network.
fn clear(e: &mut NwkNeighbor)
    ensures { e.new ≡ cleared e.old }
{
    e.extended_pan_id = ExtendedPanId(0);
    e.logical_channel = 0;
    e.depth = 0;
    e.permit_joining = false;
    e.potential_parent = 0;
    e.router_capacity = false;
    e.end_device_capacity = false;
    e.update_id = 0;
    e.pan_id = NO_PAN_ID;
}

// Every entry without its beacon fields.
pub fn clear_beacon_fields(table: NeighborTable) -> NeighborTable
    ensures { result ≡ on_entries all_cleared table }
{
    change_all(table, clear)
}

// The entry at an index is no potential parent.
pub fn clear_potential_parent(table: NeighborTable, index: u8) -> NeighborTable
    ensures { result ≡ on_entries (potential_cleared_at index) table }
{
    change_at(table, index, |e| e.potential_parent = 0)
}

// The table without every entry of a short address, the others in order. Unused slots are blank.
pub fn retain(table: NeighborTable, address: ShortAddress) -> NeighborTable
    ensures { result ≡ table_of (retained address.0 (entries_of table)) }
{
    let mut out = NeighborTable::new();
    for e in table.used() {
        let kept = e.network_address != address;
        if kept {
            out.add(*e);
        }
    }
    out
}
