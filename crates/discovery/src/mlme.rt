// The radio records that discovery and association read: what a scan hands over, and the capability information of an association request.
ghost use Rattle.std.specs.Prelude.{◌≡◌};
ghost use Rattle.nib.specs.Bits.{bit, bits};
ghost use Rattle.discovery.specs.Mlme.{mac_capabilities};

use nib::{CapabilityInformation, ExtendedPanId, IeeeAddress, PanId, ShortAddress};

// The address of the sender of a beacon, with its PAN id.
#[derive(Clone, Copy)]
pub enum Address {
    // by its short address
    Short(PanId, ShortAddress),
    // by its IEEE address
    Extended(PanId, IeeeAddress),
}

// The fields of a superframe specification that decisions or the discovery's confirm read.
#[derive(Clone, Copy)]
pub struct SuperframeSpecification {
    // the beacon order
    pub beacon_order: u8,
    // the superframe order
    pub superframe_order: u8,
    // whether the sender permits joining
    pub association_permit: bool,
}

// The stack profile field of a beacon, as received. Each part that is read has a method of its own, named as the source names the field: each is one line.
#[derive(Clone, Copy)]
pub struct StackProfile(pub u16);

impl StackProfile {
    // Bits 0 to 3: the stack profile.
    pub fn stack_profile(self) -> u8
        ensures { result ≡ bits 0 4 self.0 }
    {
        (self.0 % 16) as u8
    }

    // Bits 4 to 7: the version of the protocol.
    pub fn protocol_version(self) -> u8
        ensures { result ≡ bits 4 4 self.0 }
    {
        (self.0 / 16 % 16) as u8
    }

    // Bit 10: there is room for a router.
    pub fn router_capacity(self) -> bool
        ensures { result ≡ bit 10 self.0 }
    {
        self.0 / 1024 % 2 == 1
    }

    // Bits 11 to 14: the depth of the sender in its network.
    pub fn device_depth(self) -> u8
        ensures { result ≡ bits 11 4 self.0 }
    {
        (self.0 / 2048 % 16) as u8
    }

    // Bit 15: there is room for an end device.
    pub fn end_device_capacity(self) -> bool
        ensures { result ≡ bit 15 self.0 }
    {
        self.0 / 32768 % 2 == 1
    }
}

// What a beacon says of its sender's network.
#[derive(Clone, Copy)]
pub struct ZigbeeBeacon {
    // the stack profile field
    pub stack_profile: StackProfile,
    // the network
    pub extended_pan_id: ExtendedPanId,
    // the network's update id
    pub update_id: u8,
}

// A beacon as a scan hands it over.
#[derive(Clone, Copy)]
pub struct PanDescriptor {
    // the channel on which it was heard
    pub channel: u8,
    // the sender's PAN id
    pub coord_pan_id: PanId,
    // the sender's address
    pub coord_address: Address,
    // its superframe specification
    pub superframe_spec: SuperframeSpecification,
    // the link quality at which it was heard
    pub link_quality: u8,
    // what it carries of the network
    pub zigbee_beacon: ZigbeeBeacon,
}

// The radio failed; no decision asks why.
#[derive(Clone, Copy)]
pub struct MacError;

// How many descriptors a scan hands over at most.
pub const MAX_PAN_DESCRIPTOR_SIZE: usize = 27;

// What a scan found, in the order of the beacons: the first `count` descriptors are in use.
// An array with a count: there is no heap. Any count may be handed in: a type that bounds it would ask of the caller what refusal 3 answers now.
#[derive(Clone, Copy)]
pub struct PanDescriptorList {
    // the descriptors, in the order of the beacons
    pub descriptors: [PanDescriptor; MAX_PAN_DESCRIPTOR_SIZE],
    // how many are in use
    pub count: usize,
}

// The capability information of an association request (IEEE 802.15.4).
#[derive(Clone, Copy)]
pub struct MacCapabilityInformation {
    // the device joins as a router
    pub full_function_device: bool,
    // mains power
    pub mains_power: bool,
    // the receiver is on when idle
    pub idle_receive: bool,
    // security capability
    pub frame_protection: bool,
    // the device wants a short address
    pub allocate_address: bool,
}

// The capability information of the network layer, as the radio takes it.
pub fn build_mac_capabilities(cap: CapabilityInformation) -> MacCapabilityInformation
    ensures { result ≡ mac_capabilities cap.0 }
{
    MacCapabilityInformation {
        full_function_device: cap.device_type(),
        mains_power: cap.power_source(),
        idle_receive: cap.receiver_on_when_idle(),
        frame_protection: cap.security_capability(),
        allocate_address: cap.allocate_address(),
    }
}
