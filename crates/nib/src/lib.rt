// The part of the NWK information base that decisions read or write: identifiers, link cost, capability bits, attributes, neighbour entries and their table.
#![tactic(auto)]

ghost use Rattle.std.specs.Prelude.{◌≡◌, length, []};
ghost use Rattle.nib.specs.Bits.{bit};
ghost use Rattle.nib.specs.LinkCost.{link_cost};
ghost use Rattle.nib.specs.Neighbors.{device_type_at, blank, entries_of, entry_at, table_of, pushed};
ghost use Rattle.nib.specs.Attributes.{blank_nib};

pub mod neighbor_table;

// The identifiers are distinct types, so that none is taken for another.
#[derive(Clone, Copy, PartialEq, Eq, Default)]
pub struct PanId(pub u16);

// The 16-bit address of a device in its network.
#[derive(Clone, Copy, PartialEq, Eq, Default)]
pub struct ShortAddress(pub u16);

// The 64-bit id of a network.
#[derive(Clone, Copy, PartialEq, Eq, Default)]
pub struct ExtendedPanId(pub u64);

// The 64-bit address of a device, which it keeps in every network.
#[derive(Clone, Copy, PartialEq, Eq, Default)]
pub struct IeeeAddress(pub u64);

// The coordinator's short address.
pub const NWK_COORDINATOR_ADDRESS: ShortAddress = ShortAddress(0x0000);

// The short address of a device that is not joined (Zigbee 3.6.1.10.4).
pub const NWK_UNASSIGNED_ADDRESS: ShortAddress = ShortAddress(0xffff);

// The broadcast to all devices, and the lowest broadcast address (Zigbee Table 3-68).
pub const NWK_BROADCAST_ALL: ShortAddress = ShortAddress(0xffff);

// A number: what is asked is whether an address is below it, and only the numbers of addresses have an order.
pub const NWK_BROADCAST_ADDRESS_MIN: u16 = 0xfff8;

// What a neighbour is to this device (Zigbee Table 3-63).
pub mod relationship {
    // the neighbour is the parent
    pub const PARENT: u8 = 0x00;

    // no relationship
    pub const NONE: u8 = 0x03;
}

// The PAN id of no network.
pub const NO_PAN_ID: PanId = PanId(0xffff);

// How many entries the neighbour table holds at most; as many candidates and failure pairs are kept. Spelt as in the source.
pub const MAX_NEIGBOUR_TABLE: u8 = 16;

// The end device timeout where none is negotiated, and the one that is asked for where nothing else is set: 256 minutes (Zigbee 3.6.10.2).
pub const NO_TIMEOUT_NEGOTIATED: u8 = 0xff;

const DEFAULT_TIMEOUT: u8 = 8;

// The highest cost of a link to a candidate (Zigbee 3.6.1.4.1.1).
pub const MAX_PARENT_LINK_COST: u8 = 3;

// The cost of a link by its LQI.
pub fn link_cost_from_lqi(lqi: u8) -> u8
    ensures { result ≡ link_cost lqi }
{
    match lqi {
        128..=255 => 1,
        77..=127 => 2,
        26..=76 => 3,
        11..=25 => 5,
        1..=10 => 6,
        0 => 7,
    }
}

// What a device says of itself, as the byte that is sent. Each bit that is read has a method of its own, named as the source names the field: each is one line.
#[derive(Clone, Copy)]
pub struct CapabilityInformation(pub u8);

impl CapabilityInformation {
    // Bit 1: the device joins as a router.
    pub fn device_type(self) -> bool
        ensures { result ≡ bit 1 self.0 }
    {
        self.0 / 2 % 2 == 1
    }

    // Bit 2: mains power.
    pub fn power_source(self) -> bool
        ensures { result ≡ bit 2 self.0 }
    {
        self.0 / 4 % 2 == 1
    }

    // Bit 3: the receiver is on when idle.
    pub fn receiver_on_when_idle(self) -> bool
        ensures { result ≡ bit 3 self.0 }
    {
        self.0 / 8 % 2 == 1
    }

    // Bit 6: security capability.
    pub fn security_capability(self) -> bool
        ensures { result ≡ bit 6 self.0 }
    {
        self.0 / 64 % 2 == 1
    }

    // Bit 7: the device wants a short address.
    pub fn allocate_address(self) -> bool
        ensures { result ≡ bit 7 self.0 }
    {
        self.0 / 128 % 2 == 1
    }
}

// The attributes that decisions read or write. An end device timeout of 255 says that none is negotiated.
#[derive(Clone, Copy)]
pub struct Nib {
    // this device's short address; 0xffff where it is not joined
    pub network_address: ShortAddress,
    // this device's IEEE address
    pub ieee_address: IeeeAddress,
    // the remembered network; 0 for none
    pub extended_panid: ExtendedPanId,
    // the network's PAN id; 0xffff for none
    pub panid: PanId,
    // the network's update id
    pub update_id: u8,
    // what this device says of itself
    pub capability_information: CapabilityInformation,
    // 1 orders the candidates by depth
    pub stack_profile: u8,
    // what keepalives the parent takes; 0 where none is negotiated
    pub parent_information: u8,
    // the index of the negotiated timeout; 0xff for none
    pub end_device_timeout: u8,
    // the index that a negotiation asks for
    pub end_device_timeout_default: u8,
    // whether this device, as a router, accepts leave requests
    pub leave_request_allowed: bool,
}

impl Nib {
    // A blank information base: not joined, nothing negotiated, leave requests allowed. The IEEE address is the device's own; what it is (capabilities) and
    // which stack profile it runs are the caller's to set.
    pub fn new(ieee_address: IeeeAddress) -> Nib
        ensures { result ≡ blank_nib ieee_address }
    {
        Nib {
            network_address: NWK_UNASSIGNED_ADDRESS,
            ieee_address,
            extended_panid: ExtendedPanId(0),
            panid: NO_PAN_ID,
            update_id: 0,
            capability_information: CapabilityInformation(0),
            stack_profile: 0,
            parent_information: 0,
            end_device_timeout: NO_TIMEOUT_NEGOTIATED,
            end_device_timeout_default: DEFAULT_TIMEOUT,
            leave_request_allowed: true,
        }
    }
}

// What kind of device a neighbour is (Zigbee Table 3-63).
#[derive(Clone, Copy, Default)]
pub enum DeviceType {
    #[default]
    // the coordinator
    Coordinator,
    // a router
    Router,
    // an end device
    EndDevice,
    // any other number
    Invalid(u8),
}

// The device type of a beacon's sender, by its short address.
#[tactic(auto, unfolding(crate::specs::Neighbors::device_type_at))]
pub fn device_type_at(address: ShortAddress) -> DeviceType
    ensures { result ≡ device_type_at address.0 }
{
    if address == NWK_COORDINATOR_ADDRESS {
        return DeviceType::Coordinator;
    }
    DeviceType::Router
}

// A neighbour entry, in the source's field order; the last field is not the source's. An IEEE address of 0 is not known.
#[derive(Clone, Copy, Default)]
pub struct NwkNeighbor {
    // its IEEE address; 0 where it is not known
    pub extended_address: IeeeAddress,
    // its short address
    pub network_address: ShortAddress,
    // what it is
    pub device_type: DeviceType,
    // whether its receiver is on when idle
    pub rx_on_when_idle: bool,
    // of an end device; no decision reads it
    pub end_device_configuration: u16,
    // what it is to this device: see `relationship`
    pub relationship: u8,
    // the link quality of its last beacon
    pub lqi: u8,
    // the cost that it reports; no decision reads it
    pub outgoing_cost: u8,
    // no decision reads it
    pub age: u8,
    // no decision reads it
    pub keepalive_received: bool,
    // its network; 0 once a join has cleared the beacon fields
    pub extended_pan_id: ExtendedPanId,
    // its channel
    pub logical_channel: u8,
    // its depth in its network
    pub depth: u8,
    // whether it permits joining
    pub permit_joining: bool,
    // 1 where it may become the parent, else 0
    pub potential_parent: u8,
    // whether it has room for a router
    pub router_capacity: bool,
    // whether it has room for an end device
    pub end_device_capacity: bool,
    // its network's update id
    pub update_id: u8,
    // its network's PAN id
    pub pan_id: PanId,
    // when it was last heard, in seconds of the caller's clock; 0 where that is not known. No decision reads it
    pub last_heard: u32,
}

// The neighbour table: the first `count` entries are in use.
// An array with a count: there is no heap. Any count may be handed in: a type that bounds it would ask of the caller what refusal 5 answers now.
#[derive(Clone, Copy)]
pub struct NeighborTable {
    // the entries, in the order of the scan
    pub entries: [NwkNeighbor; MAX_NEIGBOUR_TABLE as usize],
    // how many are in use
    pub count: u8,
}

// What an unused slot holds.
fn blank_entry() -> NwkNeighbor
    ensures { result ≡ blank }
{
    NwkNeighbor::default()
}

impl NeighborTable {
    // The empty table.
    pub fn new() -> NeighborTable
        ensures { result ≡ table_of [] }
    {
        let entries = [blank_entry(); MAX_NEIGBOUR_TABLE as usize];
        NeighborTable { entries, count: 0 }
    }

    // The entries in use: as many as the count says, all 16 where it says more.
    pub fn used(&self) -> &[NwkNeighbor]
        ensures { result.now ≡ entries_of self.now }
    {
        lists::in_use(&self.entries, self.count as usize)
    }

    // How many entries are in use: 16 where the count says more.
    pub fn len(&self) -> u8
        ensures { result ≡ length (entries_of self.now) }
    {
        self.used().len() as u8
    }

    // The entry at an index, or that the index is past the table.
    pub fn get(&self, index: u8) -> Option<NwkNeighbor>
        ensures { result ≡ entry_at (entries_of self.now) index }
    {
        self.used().get(index as usize).copied()
    }

    // One entry more at the end, or none where the table is full: written in place, as a table is large to hand over. `TransmitFailures` has the like for its
    // pairs: one for both would be handed the array and the count, and be no shorter.
    #[tactic(auto, unfolding(crate::specs::Neighbors::pushed))]
    pub fn add(&mut self, e: NwkNeighbor)
        ensures { self.new ≡ pushed self.old e }
    {
        if self.count < MAX_NEIGBOUR_TABLE {
            self.entries[self.count as usize] = e;
            self.count += 1;
        }
    }

    // The table with one entry more at its end, or as it is where it is full.
    pub fn push(mut self, e: NwkNeighbor) -> NeighborTable
        ensures { result ≡ pushed self e }
    {
        self.add(e);
        self
    }
}
