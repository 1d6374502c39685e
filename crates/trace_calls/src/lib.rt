// A trace's lines, taken one by one: what stands between two of them, and what a line says of the node.
#![tactic(auto)]

ghost use Rattle.std.specs.Prelude.{◌≡◌};
ghost use Rattle.nib.specs.Neighbors.{pushed};
ghost use Rattle.node.specs.Looks.{with_table};
ghost use Rattle.trace_calls.specs.TraceCalls.{no_node, node_begun, with_pair, with_pairs, with_last_heard, unheard, with_beacon, before, set_up, at_clock, running, saying, nothing, told, scan_told, scan_after, choice_told, call_made, has_room, has_node, may_come, is_in_place, turn_taken};

use candidates::CandidateList;
use discovery::NlmeNetworkDiscoveryConfirm;
use discovery::mlme::{
    Address, MAX_PAN_DESCRIPTOR_SIZE, MacError, PanDescriptor, PanDescriptorList, StackProfile,
    SuperframeSpecification, ZigbeeBeacon,
};
use nib::{
    CapabilityInformation, ExtendedPanId, IeeeAddress, MAX_NEIGBOUR_TABLE, NeighborTable, Nib,
    NwkNeighbor, PanId, ShortAddress,
};
use node::{Answer, State};
use operation::{Note, Refusal, Step};
use supervision::{TransmitFailure, TransmitFailures};
use trace_input::{NodeFields, TraceCall};

// Which lines may come next where no beacon is due: a `node` line alone; further lines of the state, or others; others.
#[derive(Clone, Copy)]
pub enum Stage {
    // before the first `node` line
    NoNode,
    // after a `node` line and further lines of the state
    SettingUp,
    // directly below an `e` line, where an `h` line may come too
    BelowEntry,
    // after any other line
    Running,
}

// What stands between two lines.
#[derive(Clone, Copy)]
pub struct Session {
    // the node's state
    pub state: State,
    // which lines may come
    pub stage: Stage,
    // the beacons of a scan that are still to come. No case of `Stage` holds them with `beacons`, since the beacons of the last scan stay in the session
    pub missing: u32,
    // the beacons of the last scan
    pub beacons: PanDescriptorList,
    // the caller's clock in seconds, which is handed on with the outcomes that want it
    pub clock: u32,
}

// What a node answers to a call.
#[derive(Clone, Copy)]
pub struct Answered {
    // the reset note
    pub reset: bool,
    // what the radio is told without an outcome
    pub note: Option<Note>,
    // the request, confirm, answer or refusal
    pub step: Step,
    // the networks that a discovery found
    pub networks: Option<NlmeNetworkDiscoveryConfirm>,
}

// What a line says.
#[derive(Clone, Copy)]
pub enum Said {
    // it is not of the format
    Bad,
    // nothing: the line sets up the state, or a beacon is still to come
    Nothing,
    // a call's answer
    Told(Answered),
    // the candidates, or the refusal
    Chosen(Result<CandidateList, Refusal>),
    // the state
    Shown,
    // a page, by the length of the lent buffer
    Paged(u16),
    // when each entry was last heard
    LastHeard,
}

// The session after a line, and what the line says.
#[derive(Clone, Copy)]
pub struct Turn {
    // the session for the next line
    pub session: Session,
    // what is printed
    pub said: Said,
}

// A state that a `node` line begins.

// A `node` line of zeros, written out: a `Default` of zeros for `Nib` would stand beside `Nib::new`, which gives other values.
fn no_node() -> NodeFields
    ensures { result ≡ no_node }
{
    let nib = Nib {
        network_address: ShortAddress(0),
        ieee_address: IeeeAddress(0),
        extended_panid: ExtendedPanId(0),
        panid: PanId(0),
        update_id: 0,
        capability_information: CapabilityInformation(0),
        stack_profile: 0,
        parent_information: 0,
        end_device_timeout: 0,
        end_device_timeout_default: 0,
        leave_request_allowed: false,
    };
    NodeFields {
        nib,
        nwk_seq: 0,
        pending_timeout_request: 0,
        remaining_ms: 0,
    }
}

// A node with no neighbours and no operation under way.
#[tactic(auto, unfolding(crate::specs::TraceCalls::node_begun, node::specs::Beginning::new_state, nlme::specs::Nlme::new_nlme))]
fn node_begun(node: NodeFields) -> State
    ensures { result ≡ node_begun node }
{
    let mut state = State::new(node.nib, node.nwk_seq);
    state.control.nlme.pending_timeout_request = node.pending_timeout_request;
    state.control.nlme.parent_timer.remaining_ms = node.remaining_ms;
    state
}

// One pair more behind those in use; a full record stays. Not by the method of `TransmitFailures`, which is private and has room already.
fn with_pair(mut failures: TransmitFailures, p: TransmitFailure) -> TransmitFailures
    ensures { result ≡ with_pair p failures }
{
    if failures.count < MAX_NEIGBOUR_TABLE {
        failures.pairs[failures.count as usize] = p;
        failures.count += 1;
    }
    failures
}

fn with_entry(mut state: State, e: NwkNeighbor) -> State
    ensures { result ≡ with_table (pushed state.table e) state }
{
    state.table = state.table.push(e);
    state
}

// The last entry, which is that of the `e` line above, was last heard at a time.
fn with_last_heard(mut table: NeighborTable, seconds: u32) -> NeighborTable
    ensures { result ≡ with_last_heard seconds table }
{
    let last = table.count.saturating_sub(1);
    if last < MAX_NEIGBOUR_TABLE {
        table.entries[last as usize].last_heard = seconds;
    }
    table
}

fn with_heard(mut state: State, seconds: u32) -> State
    ensures { result ≡ with_table (with_last_heard seconds state.table) state }
{
    state.table = with_last_heard(state.table, seconds);
    state
}

fn with_failure(mut state: State, p: TransmitFailure) -> State
    ensures { result ≡ with_pairs (with_pair p state.control.nlme.transmit_failures) state }
{
    let failures = with_pair(state.control.nlme.transmit_failures, p);
    state.control.nlme.transmit_failures = failures;
    state
}

// The beacons of a scan.

// As many beacons as a scan tells of, none of them heard yet.
fn unheard(count: usize) -> PanDescriptorList
    ensures { result ≡ unheard count }
{
    let none = PanDescriptor {
        channel: 0,
        coord_pan_id: PanId(0),
        coord_address: Address::Short(PanId(0), ShortAddress(0)),
        superframe_spec: SuperframeSpecification {
            beacon_order: 0,
            superframe_order: 0,
            association_permit: false,
        },
        link_quality: 0,
        zigbee_beacon: ZigbeeBeacon {
            stack_profile: StackProfile(0),
            extended_pan_id: ExtendedPanId(0),
            update_id: 0,
        },
    };
    let descriptors = [none; MAX_PAN_DESCRIPTOR_SIZE];
    PanDescriptorList { descriptors, count }
}

// The next beacon is heard; the first 27 are kept.
fn with_beacon(mut list: PanDescriptorList, missing: u32, d: PanDescriptor) -> PanDescriptorList
    ensures { result ≡ with_beacon missing d list }
{
    let heard = list.count.saturating_sub(missing as usize);
    if heard < MAX_PAN_DESCRIPTOR_SIZE {
        list.descriptors[heard] = d;
    }
    list
}

// What a line leaves and says.
impl Session {
    // Before the first line.
    pub fn new() -> Session
        ensures { result ≡ before }
    {
        Session {
            state: node_begun(no_node()),
            stage: Stage::NoNode,
            missing: 0,
            beacons: unheard(0),
            clock: 0,
        }
    }

    fn saying(self, said: Said) -> Turn
        ensures { result ≡ saying said self }
    {
        Turn {
            session: self,
            said,
        }
    }

    // With the caller's clock at a time.
    fn at_clock(self, seconds: u32) -> Session
        ensures { result ≡ at_clock seconds self }
    {
        Session {
            clock: seconds,
            ..self
        }
    }

    // After a call, with the state that it leaves.
    fn running(self, state: State) -> Session
        ensures { result ≡ running state self }
    {
        Session {
            state,
            stage: Stage::Running,
            missing: 0,
            ..self
        }
    }

    // `node` and the further lines of the state, with the state that they leave.
    fn set_up(self, state: State, stage: Stage) -> Turn
        ensures { result ≡ nothing (set_up state stage self) }
    {
        let session = Session {
            state,
            stage,
            missing: 0,
            ..self
        };
        session.saying(Said::Nothing)
    }

    // A call's answer, with the networks that a discovery found.
    fn told(self, answer: Answer, networks: Option<NlmeNetworkDiscoveryConfirm>) -> Turn
        ensures { result ≡ told answer networks self }
    {
        let with_networks = Answered {
            reset: answer.reset,
            note: answer.note,
            step: answer.step,
            networks,
        };
        self.running(answer.state).saying(Said::Told(with_networks))
    }

    // The answer to a call that finds no networks.
    fn answered(self, answer: Answer) -> Turn
        ensures { result ≡ told answer None self }
    {
        self.told(answer, None)
    }

    // The outcome of a scan reaches the node.
    fn scan_told(self, outcome: Result<PanDescriptorList, MacError>) -> Turn
        ensures { result ≡ scan_told outcome self }
    {
        let scanned = self.state.scan_over(outcome, self.clock);
        self.told(scanned.answer, scanned.confirm)
    }

    // After `scan` or `b`, with so many beacons still to come: the outcome reaches the node with the last of them.
    fn scan_after(self, missing: u32, beacons: PanDescriptorList) -> Turn
        ensures { result ≡ scan_after missing beacons self }
    {
        if missing == 0 {
            return self.scan_told(Ok(beacons));
        }
        let session = Session {
            stage: Stage::Running,
            missing,
            beacons,
            ..self
        };
        session.saying(Said::Nothing)
    }

    // A beacon of a scan is heard.
    #[tactic(auto, unfolding(crate::specs::TraceCalls::call_made))]
    fn beacon_heard(self, d: PanDescriptor) -> Turn
        ensures { result ≡ call_made (TraceCall.Beacon d) self }
    {
        self.scan_after(
            self.missing.saturating_sub(1),
            with_beacon(self.beacons, self.missing, d),
        )
    }

    // The choice of candidates on the present table.
    fn choice_told(self, network: ExtendedPanId, router: bool, permit: bool) -> Turn
        ensures { result ≡ choice_told network.0 router permit self }
    {
        let choice = self.state.select_candidates(network, router, permit);
        self.running(self.state).saying(Said::Chosen(choice))
    }

    // The call that a line makes.
    #[tactic(auto, unfolding(crate::specs::TraceCalls::call_made))]
    fn make(self, call: TraceCall) -> Turn
        ensures { result ≡ call_made call self }
    {
        let state = self.state;
        match call {
            TraceCall::Node(node) => self.at_clock(0).set_up(node_begun(node), Stage::SettingUp),
            TraceCall::Entry(e) => self.set_up(with_entry(state, e), Stage::BelowEntry),
            TraceCall::Failure(p) => self.set_up(with_failure(state, p), Stage::SettingUp),
            TraceCall::Heard(seconds) => {
                self.set_up(with_heard(state, seconds), Stage::SettingUp)
            }
            TraceCall::Discovery(range) => self.answered(state.start_discovery(range)),
            TraceCall::Join(request) => self.answered(state.join(request)),
            TraceCall::Send {
                destination,
                secure,
            } => self.answered(state.send_data(destination, secure)),
            TraceCall::Poll => self.answered(state.poll()),
            TraceCall::Receive => self.answered(state.receive()),
            TraceCall::Negotiate => self.answered(state.negotiate_end_device_timeout()),
            TraceCall::Keepalive => self.answered(state.send_timeout_request_keepalive()),
            TraceCall::Scan(n) => self.scan_after(n, unheard(n as usize)),
            TraceCall::Beacon(d) => self.beacon_heard(d),
            TraceCall::ScanFailed => self.scan_told(Err(MacError)),
            TraceCall::Association(outcome) => self.answered(state.association_over(outcome)),
            TraceCall::Transmission(sent) => self.answered(state.transmission_over(sent)),
            TraceCall::Reception(outcome) => {
                self.answered(state.reception_over(outcome, self.clock))
            }
            TraceCall::Tick(ms) => self.answered(state.tick_parent_timeout(ms)),
            TraceCall::TakeLeave => self.answered(state.take_leave_indication()),
            TraceCall::TakeStatus => self.answered(state.take_nwk_status_indication()),
            TraceCall::Refresh => self.answered(state.refresh_parent_timeout()),
            TraceCall::Choose {
                extended_pan_id,
                join_as_router,
                require_permit_joining,
            } => self.choice_told(extended_pan_id, join_as_router, require_permit_joining),
            TraceCall::Clock(seconds) => self
                .at_clock(seconds)
                .running(state)
                .saying(Said::Nothing),
            TraceCall::PrintState => self.running(state).saying(Said::Shown),
            TraceCall::PrintLastHeard => self.running(state).saying(Said::LastHeard),
            TraceCall::Page(length) => self.running(state).saying(Said::Paged(length)),
        }
    }
}

// Which lines may come.
impl Stage {
    // Whether a line of the state may come, with so many of its kind before it.
    fn has_room(self, count: u8) -> bool
        ensures { result ≡ has_room self count }
    {
        match self {
            Stage::SettingUp | Stage::BelowEntry => count < MAX_NEIGBOUR_TABLE,
            Stage::NoNode | Stage::Running => false,
        }
    }

    fn has_node(self) -> bool
        ensures { result ≡ has_node self }
    {
        match self {
            Stage::NoNode => false,
            Stage::SettingUp | Stage::BelowEntry | Stage::Running => true,
        }
    }
}

impl Session {
    // Whether a line may come where no beacon is due.
    fn may_come(self, call: TraceCall) -> bool
        ensures { result ≡ may_come call self }
    {
        match call {
            TraceCall::Node(_) => true,
            TraceCall::Entry(_) => self.stage.has_room(self.state.table.count),
            TraceCall::Failure(_) => self
                .stage
                .has_room(self.state.control.nlme.transmit_failures.count),
            TraceCall::Heard(_) => matches!(self.stage, Stage::BelowEntry),
            TraceCall::Beacon(_) => false,
            _ => self.stage.has_node(),
        }
    }

    // Where a beacon is due nothing else may come.
    fn is_in_place(self, call: TraceCall) -> bool
        ensures { result ≡ is_in_place call self }
    {
        if self.missing == 0 {
            self.may_come(call)
        } else {
            matches!(call, TraceCall::Beacon(_))
        }
    }

    // A line taken. `None` is a line that is not of the format.
    #[tactic(auto, unfolding(crate::specs::TraceCalls::turn_taken))]
    pub fn take(self, call: Option<TraceCall>) -> Turn
        ensures { result ≡ turn_taken call self }
    {
        match call {
            // a beacon, of which a scan has up to 27, comes first: `make` clears memory for the calls of all other lines
            Some(TraceCall::Beacon(d)) if self.missing != 0 => self.beacon_heard(d),
            Some(call) if self.is_in_place(call) => self.make(call),
            _ => self.saying(Said::Bad),
        }
    }
}
