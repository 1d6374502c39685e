// The neighbour table and the network descriptors that a discovery makes from a scan.
#![tactic(auto)]

ghost use Rattle.std.specs.Prelude.{◌≤◌, ◌≡◌, [], map, length, take, is_some};
ghost use Rattle.nib.specs.Neighbors.{table_of};
ghost use Rattle.discovery.specs.Mlme.{descriptors_of};
ghost use Rattle.discovery.specs.Discovery.{
  potential_parent_of,
  entry_from,
  neighbor_of,
  neighbors_heard,
  short_addressed,
  network_descriptor_of,
  blank_descriptor,
  confirm_of,
};

pub mod mlme;

use crate::mlme::{
    Address, MAX_PAN_DESCRIPTOR_SIZE, PanDescriptor, PanDescriptorList, StackProfile,
};
use nib::{ExtendedPanId, NeighborTable, NwkNeighbor, PanId, ShortAddress};

// What a discovery tells of one beacon.
#[derive(Clone, Copy, Default)]
pub struct NetworkDescriptor {
    // the network
    pub extended_pan_id: ExtendedPanId,
    // its PAN id
    pub pan_id: PanId,
    // its update id
    pub update_id: u8,
    // the channel of the beacon
    pub logical_channel: u8,
    // its stack profile
    pub stack_profile: u8,
    // its version of the protocol
    pub zigbee_version: u8,
    // the beacon order of the superframe
    pub beacon_order: u8,
    // the superframe order
    pub superframe_order: u8,
    // whether the beacon's sender permits joining
    pub permit_joining: bool,
    // whether that sender has room for a router
    pub router_capacity: bool,
    // whether that sender has room for an end device
    pub end_device_capacity: bool,
}

// How many networks a confirm tells of at most: one for each descriptor of a scan.
pub const MAX_NETWORK_DESCRIPTORS: u8 = MAX_PAN_DESCRIPTOR_SIZE as u8;

// The confirm of a discovery: the first `count` descriptors are in use.
// An array with a count, since there is no heap.
#[derive(Clone, Copy)]
pub struct NlmeNetworkDiscoveryConfirm {
    // the descriptors, in the order of the scan
    pub network_descriptor: [NetworkDescriptor; MAX_PAN_DESCRIPTOR_SIZE],
    // how many are in use
    pub count: u8,
}

// Whether a beacon's sender may become the parent, as 1 or 0.
#[tactic(auto, unfolding(crate::specs::Discovery::potential_parent_of))]
fn potential_parent(profile: StackProfile, address: ShortAddress) -> u8
    ensures { result ≡ potential_parent_of profile.0 address.0 }
{
    u8::from(
        profile.router_capacity()
            || profile.end_device_capacity()
            || address == nib::NWK_COORDINATOR_ADDRESS,
    )
}

// The entry of a beacon whose sender has this short address.
#[tactic(auto, unfolding(crate::specs::Discovery::entry_from))]
fn entry_from(pd: PanDescriptor, address: ShortAddress) -> NwkNeighbor
    ensures { result ≡ entry_from pd address }
{
    let beacon = pd.zigbee_beacon;
    let profile = beacon.stack_profile;
    NwkNeighbor {
        network_address: address,
        device_type: nib::device_type_at(address),
        relationship: nib::relationship::NONE,
        lqi: pd.link_quality,
        extended_pan_id: beacon.extended_pan_id,
        logical_channel: pd.channel,
        depth: profile.device_depth(),
        permit_joining: pd.superframe_spec.association_permit,
        potential_parent: potential_parent(profile, address),
        router_capacity: profile.router_capacity(),
        end_device_capacity: profile.end_device_capacity(),
        update_id: beacon.update_id,
        pan_id: pd.coord_pan_id,
        ..NwkNeighbor::default()
    }
}

// The neighbour entry of a descriptor, or none where its sender has no short address.
#[tactic(auto, unfolding(crate::specs::Discovery::neighbor_by))]
fn neighbor_from(pd: PanDescriptor) -> Option<NwkNeighbor>
    ensures { result ≡ neighbor_of pd }
{
    match pd.coord_address {
        Address::Short(_, short) => Some(entry_from(pd, short)),
        Address::Extended(_, _) => None,
    }
}

// What the confirm tells of a descriptor.
impl From<PanDescriptor> for NetworkDescriptor {
    ghost from_gives = { λ pd r. r ≡ network_descriptor_of pd };

    fn from(pd: PanDescriptor) -> NetworkDescriptor {
        let beacon = pd.zigbee_beacon;
        let profile = beacon.stack_profile;
        let superframe = pd.superframe_spec;
        NetworkDescriptor {
            extended_pan_id: beacon.extended_pan_id,
            pan_id: pd.coord_pan_id,
            update_id: beacon.update_id,
            logical_channel: pd.channel,
            stack_profile: profile.stack_profile(),
            zigbee_version: profile.protocol_version(),
            beacon_order: superframe.beacon_order,
            superframe_order: superframe.superframe_order,
            permit_joining: superframe.association_permit,
            router_capacity: profile.router_capacity(),
            end_device_capacity: profile.end_device_capacity(),
        }
    }
}

// The descriptors in use: all 27 where the count says more.
fn descriptors_in_use(list: &PanDescriptorList) -> &[PanDescriptor]
    ensures descriptors { result.now ≡ descriptors_of list.now }
    ensures few { length result.now ≤ MAX_PAN_DESCRIPTOR_SIZE }
{
    lists::in_use(&list.descriptors, list.count)
}

// Whether the sender of a descriptor has a short address.
#[tactic(auto, unfolding(crate::specs::Discovery::neighbor_by))]
fn is_short(pd: &PanDescriptor) -> bool
    ensures { result ≡ is_some (neighbor_of pd.now) }
{
    match pd.coord_address {
        Address::Short(_, _) => true,
        Address::Extended(_, _) => false,
    }
}

// How many of the descriptors in use are short-addressed.
#[tactic(auto, using(crate::proofs::Scans::short_count))]
pub fn short_addressed(list: PanDescriptorList) -> usize
    ensures { result ≡ short_addressed (descriptors_of list) }
{
    descriptors_in_use(&list)
        .iter()
        .filter(|pd| is_short(*pd))
        .count()
}

// The neighbour table of a scan: its short-addressed descriptors in their order, at most 16, last heard at the time of its outcome.
pub fn neighbor_table_from(list: PanDescriptorList, clock: u32) -> NeighborTable
    ensures { result ≡ table_of (take 16 (neighbors_heard clock (descriptors_of list))) }
{
    let mut table = NeighborTable::new();
    for pd in descriptors_in_use(&list) {
        if let Some(mut e) = neighbor_from(*pd) {
            e.last_heard = clock;
            table.add(e);
        }
    }
    table
}

// What an unused place of the confirm holds.
fn blank_descriptor() -> NetworkDescriptor
    ensures { result ≡ blank_descriptor }
{
    NetworkDescriptor::default()
}

// A confirm that tells of no network.
pub fn no_networks() -> NlmeNetworkDiscoveryConfirm
    ensures { result ≡ confirm_of [] }
{
    NlmeNetworkDiscoveryConfirm {
        network_descriptor: [blank_descriptor(); MAX_PAN_DESCRIPTOR_SIZE],
        count: 0,
    }
}

// The confirm of a discovery: one descriptor for each of the scan, in its order.
pub fn network_descriptors(list: PanDescriptorList) -> NlmeNetworkDiscoveryConfirm
    ensures { result ≡ confirm_of (map network_descriptor_of (descriptors_of list)) }
{
    let used = descriptors_in_use(&list);
    let mut confirm = no_networks();
    for (i, pd) in used.iter().enumerate() {
        confirm.network_descriptor[i] = NetworkDescriptor::from(*pd);
    }
    confirm.count = used.len() as u8;
    confirm
}
