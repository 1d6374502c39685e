// A node's state, and every call that can be made on it: what an engineer who builds on this reads first.
//
// `State::new` is a node before its first call; `crates/example` goes through a plug's day with it.
//
// A call takes the state by value and answers the next one; nothing is asked of the caller. A start (`start_discovery`, `join`, `send_data`, `poll`, `receive`,
// `negotiate_end_device_timeout`, `send_timeout_request_keepalive`) answers a request to the radio, or at once what came of it. The outcome of each request is
// handed back by the call of its kind (`scan_over`, `association_over`, `transmission_over`, `reception_over`), which answers the next request, or what the
// operation came to. One operation is under way at a time. Ticks, the restart of the timer, takings, the choice of candidates and the neighbour page may come
// between any two calls. The queries (`keepalive_method` and the two intervals) only read, and are never turned down.
//
// A call that is turned down answers the number of its refusal, and the state and every lent buffer as they were handed in: 1 an operation is under way; 2 no
// request awaits that outcome; 3 a scan with more than 27 descriptors; 4 one with more than 16 short-addressed ones; 5 a state that no calls lead to (a count
// above 16, more than 20 polls left, an association with an index past the table); 6 a page for fewer than 816 bytes. Of several the first in the order 5, 1,
// 2, 3, 4, 6 is given.
//
// What the radio owes for each request:
//
// - `Scan`: the beacons that it heard, or `Err`.
// - `Associate`: the candidate's answer, or `Err`. The radio takes channel, PAN id and, on success, its short address by itself: no note says them.
// - `Transmit`: whether the frame was sent and, where an acknowledgement was asked for, acknowledged. Of a data frame `true` restarts the parent's timer.
// - `Poll`: the frame; `Ok(None)` where the parent has none; `Err` where it does not answer.
// - `Receive`: the frame, or `Err`; `Ok(None)` counts as `Err`.
//
// No call gives an operation up: a radio that does not answer is told of as a failure. A data frame is not kept. The owner has it, and hands it up where the
// answer is `Polled(PollData)`; in a rejoin, a negotiation or a keepalive the source drops it, and no answer speaks of it.
//
// `scan_over` and `reception_over` take the caller's clock too, in seconds: an entry says when its neighbour was last heard. The time is that at which the
// outcome is handed back, and not that of the start. 0 is read as not known. The clock may go back: no decision reads it. An owner reads the times in `table`,
// where `neighbor_table::parent_index` gives the parent's place.
//
// The indications of a leave and of a lost parent stand in slots, one each, and a newer one takes the place of an older. So an owner takes both after each
// outcome of a transmission, a poll or a receive, at the end of a keepalive, and after each tick that has expired.
//
// A timer interrupt that keeps a record of its own loads it anew after every call (`lent_tick::tick_lent` says why).
//
// Types stand below: `Nib`, identifiers and the neighbour table in `nib`; requests, confirms, answers and indications in `management`, frames in its `frame`;
// what a scan hands over in `discovery::mlme`; `AssociationResponse` in `join::association`; `Step`, `RadioRequest`, `Note` and `Refusal` in `operation`;
// `KeepaliveMethod` and `parent_timer::ParentTimer` in `supervision`.
#![tactic(auto)]

ghost use Rattle.std.specs.Prelude.{◌≡◌, MatchOption, true, false, not, length};
ghost use Rattle.supervision.specs.Keepalive.{keepalive_interval_ms, keepalive_method, negotiated_poll_interval_ms};
ghost use Rattle.operation.specs.Operation.{association_for, telling, ending};
ghost use Rattle.join.specs.Join.{failing};
ghost use Rattle.join.specs.Rejoin.{request_sent};
ghost use Rattle.exchange.specs.Exchange.{data_sent, timeout_request_sent};
ghost use Rattle.node.specs.Beginning.{new_state};
ghost use Rattle.node.specs.Looks.{parent, tried, next, moved, potential_cleared, deciding};
ghost use Rattle.node.specs.Refusals.{refuse, past_in, bad_by, bad};
ghost use Rattle.node.specs.Private.{refusal, start_refusal};
ghost use Rattle.node.specs.Calls.{join_by, associate, with_chosen, rejoin_among, scan_failed, scan_heard, scan_decided, confirm_by, scanned, continuing, go_on, table_changed, after_frame, handled_on, heard_on, processed, after_leave, transmission_decided, answer, choose, refresh, page_answer, page_left, discovery, join, send, poll, receive, timeout, scan, association, transmission, reception, elapsed, take_leave, take_status};

use candidates::tries::Candidates;
use candidates::{CandidateList, tries};
use discovery::NlmeNetworkDiscoveryConfirm;
use discovery::mlme::{MAX_PAN_DESCRIPTOR_SIZE, MacError, PanDescriptorList};
use exchange::negotiation;
use join::association::AssociationResponse;
use join::rejoin::REJOIN_RESPONSE_POLL_RETRIES;
use join::{association, rejoin};
use management::frame::ReceivedFrame;
use management::{NlmeJoinRequest, NlmeJoinStatus, PollAnswer, RejoinNetwork, ScanRange};
use nib::{
    ExtendedPanId, MAX_NEIGBOUR_TABLE, NeighborTable, Nib, NwkNeighbor, ShortAddress,
    neighbor_table,
};
use nlme::received::{Handled, Then};
use nlme::{Nlme, received};
use operation::{
    Control, Decision, Leaving, Move, Note, Operation, Phase, ReceptionFor, Refusal, ScanFor, Step,
    TimeoutFor, TransmissionFor,
};
use supervision::KeepaliveMethod;

// How many short-addressed descriptors a scan has at most: each of them gives an entry of the table.
const MAX_SHORT_ADDRESSED: usize = MAX_NEIGBOUR_TABLE as usize;

// The state of a node.
#[derive(Clone, Copy)]
pub struct State {
    // the node itself, and the operation under way
    pub control: Control,
    // the neighbours, as the last scan and the frames since then have told of them
    pub table: NeighborTable,
    // the candidates of the join or rejoin under way
    pub candidates: Candidates,
}

// What a call answers.
#[derive(Clone, Copy)]
pub struct Answer {
    // the state for the next call
    pub state: State,
    // the device has left its network: what its owner keeps beside this state (routes, groups, keys, counters, address map) is to be reset (01, "Received
    // frame"). The parent's timer counts on: an owner who doesn't want its signal begins with `State::new`
    pub reset: bool,
    // what the radio is told first, without an outcome
    pub note: Option<Note>,
    // the request to the radio, the confirm or answer that ends the operation, or the refusal
    pub step: Step,
    // 1 where the step is a poll, else 0
    pub polls_used: u8,
}

// The answer to the outcome of a scan, with the confirm where a discovery has heard.
#[derive(Clone, Copy)]
pub struct ScanAnswer {
    // what every call answers: the next state, and the request, confirm or refusal
    pub answer: Answer,
    // the networks that were heard, where the step is `Discovered`; none with any other step
    pub confirm: Option<NlmeNetworkDiscoveryConfirm>,
}

// Whether an index being tried or still to be tried in an association is not below the neighbour count.
fn is_past(phase: Phase, neighbors: u8, candidates: Candidates) -> bool
    ensures { result ≡ past_in (association_for phase) neighbors candidates }
{
    match phase {
        Phase::Association => tries::past_table(candidates, neighbors),
        Phase::Idle | Phase::Scan(_) | Phase::Transmission(_) | Phase::Reception(_) => false,
    }
}

// Refusal 5: a count is above 16, polls left above 20, or an association has an index past the table.
fn is_bad_by(neighbors: u8, failures: u8, candidates: Candidates, operation: Operation) -> bool
    ensures { result ≡ bad_by neighbors failures candidates operation }
{
    MAX_NEIGBOUR_TABLE < neighbors
        || MAX_NEIGBOUR_TABLE < failures
        || MAX_NEIGBOUR_TABLE < candidates.list.count
        || MAX_NEIGBOUR_TABLE < candidates.taken
        || REJOIN_RESPONSE_POLL_RETRIES < operation.polls_left
        || is_past(operation.phase, neighbors, candidates)
}

// The beginning.
impl State {
    // A node before its first call: no neighbours, no operation under way. `Nib::new` gives a blank information base. Whoever kept the attributes over a
    // restart hands those in, and puts the neighbour table that he kept back into `table`: without it the node has no parent. The sequence number is the last
    // one used; a node that has none draws it at random.
    #[tactic(auto, unfolding(crate::specs::Beginning::new_state))]
    pub fn new(nib: Nib, nwk_seq: u8) -> State
        ensures { result ≡ new_state nib nwk_seq }
    {
        State {
            control: Control::new(Nlme::new(nib, nwk_seq)),
            table: NeighborTable::new(),
            candidates: Candidates {
                list: CandidateList::new(),
                taken: 0,
            },
        }
    }
}

// When a call is turned down.
impl State {
    #[tactic(auto, unfolding(crate::specs::Refusals::refuse))]
    fn refuse(&self, refusal: Refusal) -> Answer
        ensures { result ≡ refuse refusal self.now }
    {
        let step = Step::Refused(refusal);
        Answer {
            state: *self,
            reset: false,
            note: None,
            step,
            polls_used: 0,
        }
    }

    #[tactic(auto, unfolding(crate::specs::Refusals::bad))]
    fn is_bad(&self) -> bool
        ensures { result ≡ bad self.now }
    {
        is_bad_by(
            self.table.count,
            self.control.nlme.transmit_failures.count,
            self.candidates,
            self.control.operation,
        )
    }

    // The refusal of a call that may come at any time: 5, or none.
    fn refusal(&self) -> Option<Refusal>
        ensures { result ≡ refusal self.now }
    {
        self.is_bad().then_some(Refusal::BadState)
    }

    // The refusal of a start: 5, then 1 if an operation is under way, or none.
    fn start_refusal(&self) -> Option<Refusal>
        ensures { result ≡ start_refusal self.now }
    {
        let is_under_way = !operation::is_idle(self.control.operation.phase);
        self.refusal()
            .or(is_under_way.then_some(Refusal::OperationUnderWay))
    }

    // Refusal 5, or else the answer that is made.
    fn unless_bad<F: FnOnce() -> Answer>(&self, make: F) -> Answer
        requires { F.IsAlwaysCallable make }
        ensures { MatchOption (refusal self.now) (F.post make result) (λ k. result ≡ refuse k self.now) }
    {
        match self.refusal() {
            Some(refusal) => self.refuse(refusal),
            None => make(),
        }
    }

    // Refusal 5, or else the decision that is made, written.
    fn decide_unless_bad<F: FnOnce() -> Decision>(&self, decide: F) -> Answer
        requires { F.IsAlwaysCallable decide }
        ensures { MatchOption (refusal self.now) ((d : Decision) × ((F.post decide d) × (result ≡ deciding self.now d))) (λ k. result ≡ refuse k self.now) }
    {
        match self.refusal() {
            Some(refusal) => self.refuse(refusal),
            None => self.decided_on(decide()),
        }
    }

    // A start's refusal, where it has one, or else the decision that is made, written.
    fn start<F: FnOnce() -> Decision>(&self, decide: F) -> Answer
        requires { F.IsAlwaysCallable decide }
        ensures { MatchOption (start_refusal self.now) ((d : Decision) × ((F.post decide d) × (result ≡ deciding self.now d))) (λ k. result ≡ refuse k self.now) }
    {
        match self.start_refusal() {
            Some(refusal) => self.refuse(refusal),
            None => self.decided_on(decide()),
        }
    }
}

// What a call looks at: the parent, the candidate being tried and the next one, each by its index in the table. Two lines each: one for all would be handed the
// index, and be `seen_at`.
impl State {
    #[tactic(auto, unfolding(candidates::specs::Tries::parent_in, nib::specs::NeighborTable::parent_of))]
    fn parent(&self) -> Option<NwkNeighbor>
        ensures { result ≡ parent self.now }
    {
        let index = neighbor_table::parent_index(&self.table);
        neighbor_table::seen_at(&self.table, index)
    }

    #[tactic(auto, unfolding(candidates::specs::Tries::tried_in))]
    fn tried(&self) -> Option<NwkNeighbor>
        ensures { result ≡ tried self.now }
    {
        let index = tries::tried_index(self.candidates, self.table.len());
        neighbor_table::seen_at(&self.table, index)
    }

    #[tactic(auto, unfolding(candidates::specs::Tries::next_in))]
    fn next(&self) -> Option<NwkNeighbor>
        ensures { result ≡ next self.now }
    {
        let index = tries::next_index(self.candidates, self.table.len());
        neighbor_table::seen_at(&self.table, index)
    }
}

// What a decision writes, each change in a function of its own: a call that makes none of them then clears no memory for a table.
impl State {
    // The candidate being tried is no longer a potential parent.
    fn clear_tried(&mut self)
        ensures { self.new ≡ potential_cleared true self.old }
    {
        let index = tries::tried_index(self.candidates, self.table.len());
        self.table = neighbor_table::clear_potential_parent(self.table, index);
    }

    // The next candidate is tried.
    fn take_next(&mut self)
        ensures { self.new ≡ moved Move.TakeNext self.old }
    {
        self.candidates = tries::take_next(self.candidates, self.table.len());
    }

    // The next candidate is tried, and is the parent.
    fn adopt_next(&mut self)
        ensures { self.new ≡ moved Move.AdoptNext self.old }
    {
        let count = self.table.len();
        let index = tries::next_index(self.candidates, count);
        self.table = neighbor_table::adopt_parent(self.table, index);
        self.candidates = tries::take_next(self.candidates, count);
    }

    // The candidate being tried is the parent, and every entry loses its beacon fields.
    fn join_tried(&mut self)
        ensures { self.new ≡ moved Move.JoinTried self.old }
    {
        let index = tries::tried_index(self.candidates, self.table.len());
        self.table = neighbor_table::mark_parent(self.table, index);
        self.table = neighbor_table::clear_beacon_fields(self.table);
    }

    // A decision is written, and its answer made.
    #[tactic(auto, unfolding(crate::specs::Looks::deciding_with, crate::specs::Looks::potential_cleared, crate::specs::Looks::moved))]
    fn decided_on(&self, decision: Decision) -> Answer
        ensures { result ≡ deciding self.now decision }
    {
        let mut state = *self;
        if decision.clear_potential_parent {
            state.clear_tried();
        }
        match decision.candidate {
            Move::Stay => {}
            Move::TakeNext => state.take_next(),
            Move::AdoptNext => state.adopt_next(),
            Move::JoinTried => state.join_tried(),
        }
        state.control = decision.control;
        Answer {
            state,
            reset: false,
            note: decision.note,
            step: decision.step,
            polls_used: decision.polls_used,
        }
    }
}

// Starts.
impl State {
    // Starts a discovery of the networks on a range of channels: `Ask(Scan)`. `scan_over` then answers `Discovered` with the confirm, or `DiscoveryFailed`.
    // What was heard takes the place of the whole neighbour table, the parent's entry too: a node that has a parent has none after it, and rejoins.
    #[tactic(auto, unfolding(crate::specs::Calls::answer))]
    pub fn start_discovery(self, range: ScanRange) -> Answer
        ensures { result ≡ answer self (discovery range) }
    {
        self.start(|| operation::scan(self.control, ScanFor::Discovery, range))
    }

    // A join or rejoin ends without success.
    fn fail_join(&self, status: NlmeJoinStatus) -> Answer
        ensures { result ≡ deciding self.now (failing status self.now.control) }
    {
        self.decided_on(join::failing(self.control, status))
    }

    // An association: the candidates are chosen from the present table, and the first is tried.
    #[tactic(auto, unfolding(crate::specs::Calls::associate, crate::specs::Calls::with_chosen))]
    fn associate(&self, request: NlmeJoinRequest) -> Answer
        ensures { result ≡ associate request self.now }
    {
        if self.control.nlme.nib.network_address != nib::NWK_UNASSIGNED_ADDRESS {
            return self.fail_join(NlmeJoinStatus::InvalidRequest);
        }
        let mut state = *self;
        let require_permit_joining = true;
        state.candidates = tries::chosen_from(
            state.table,
            state.control.nlme.nib.stack_profile,
            request.extended_pan_id,
            request.capability_information,
            require_permit_joining,
        );
        let next = state.next();
        let decision = association::start_join(state.control, request.capability_information, next);
        state.decided_on(decision)
    }

    #[tactic(auto, unfolding(crate::specs::Calls::join_by))]
    fn join_by(&self, request: NlmeJoinRequest) -> Answer
        ensures { result ≡ join_by request.rejoin_network request self.now }
    {
        match request.rejoin_network {
            RejoinNetwork::Association => self.associate(request),
            RejoinNetwork::NwkRejoin => {
                self.decided_on(rejoin::start_rejoin(self.control, request, self.parent()))
            }
            RejoinNetwork::Orphan | RejoinNetwork::ChannelChange => {
                self.fail_join(NlmeJoinStatus::InvalidRequest)
            }
        }
    }

    // Starts a join or a rejoin, as the request says: `Ask(Associate)`, `Ask(Transmit)` or `Ask(Scan)`, or `Joined` at once where it can't be begun. Each
    // outcome brings the next request, until `Joined` says what came of it. A join chooses among the neighbours of the last discovery; a rejoin asks the
    // remembered parent first, and scans by itself.
    //
    // A node with no address (0xffff) joins, one with an address rejoins; otherwise the confirm is InvalidRequest. Extended PAN id 0 is any network for a join,
    // and the remembered one for a rejoin; where another is remembered, a rejoin is InvalidRequest too. A join reads neither `scan` nor `security_enabled`.
    // Either forgets what was negotiated: the parent's timer is inactive until a timeout is negotiated anew. The confirm of a rejoin by the remembered parent
    // has channel 0: the channel is the one before.
    #[tactic(auto, unfolding(crate::specs::Calls::answer))]
    pub fn join(self, request: NlmeJoinRequest) -> Answer
        ensures { result ≡ answer self (join request) }
    {
        match self.start_refusal() {
            Some(refusal) => self.refuse(refusal),
            None => self.join_by(request),
        }
    }

    // Starts the send of a data frame by way of the parent: `Ask(Transmit)` with its header, to which the owner puts the payload, then `Sent`: `SendOk`;
    // `SendMacError` where it was not sent; `SendParentLinkFailure` at the third such in a row, which signals ParentLinkFailure. With no parent it is
    // `Sent(SendNotJoined)` at once.
    #[tactic(auto, unfolding(crate::specs::Calls::answer))]
    pub fn send_data(self, destination: ShortAddress, secure: bool) -> Answer
        ensures { result ≡ answer self (send destination secure) }
    {
        self.start(|| exchange::start_send(self.control, destination, secure, self.parent()))
    }

    // Polls the parent once: `Ask(Poll)`, then `Polled`: `PollData` where the frame is the application's; `PollNothing` where there was none, or one that the
    // node has dealt with; `PollUndecodable`; `PollMacError`. With no parent it is `Polled(PollNotJoined)` at once.
    #[tactic(auto, unfolding(crate::specs::Calls::answer))]
    pub fn poll(self) -> Answer
        ensures { result ≡ answer self poll }
    {
        self.start(|| exchange::start_poll(self.control, self.parent()))
    }

    // Receives one frame without a poll: `Ask(Receive)`, then `Polled` as a poll's, for a device that listens when idle. It needs no parent.
    #[tactic(auto, unfolding(crate::specs::Calls::answer))]
    pub fn receive(self) -> Answer
        ensures { result ≡ answer self receive }
    {
        self.start(|| exchange::start_receive(self.control))
    }

    // The start of a negotiation or a keepalive.
    #[tactic(auto, unfolding(crate::specs::Calls::answer))]
    fn start_timeout(&self, purpose: TimeoutFor) -> Answer
        ensures { result ≡ answer self.now (timeout purpose) }
    {
        self.start(|| negotiation::start_timeout_request(self.control, purpose, self.parent()))
    }

    // Asks the parent for the timeout that the attributes name: `Ask(Transmit)`, at most 3 times `Ask(Poll)`, then `NegotiationOver`: `Negotiated`, and the
    // parent's timer runs (it is inactive where the index asked for is above 14); `NotNegotiated` where the parent declined or no response came;
    // `NegotiationMacError` where the request was not sent. With no parent it is `NegotiationNotJoined` at once.
    pub fn negotiate_end_device_timeout(self) -> Answer
        ensures { result ≡ answer self (timeout TimeoutFor.Negotiation) }
    {
        self.start_timeout(TimeoutFor::Negotiation)
    }

    // The same as a keepalive, which ends with `KeepaliveOver`: one that fails, for whatever reason, signals ParentLinkFailure.
    pub fn send_timeout_request_keepalive(self) -> Answer
        ensures { result ≡ answer self (timeout TimeoutFor.Keepalive) }
    {
        self.start_timeout(TimeoutFor::Keepalive)
    }
}

// The outcome of a scan.
impl State {
    fn end_discovery(&self, step: Step) -> Answer
        ensures { result ≡ deciding self.now (ending step self.now.control) }
    {
        self.decided_on(operation::ending(self.control, step))
    }

    // A rejoin goes on to its candidates.
    #[tactic(auto, unfolding(crate::specs::Calls::with_chosen))]
    fn try_candidates(&self) -> Answer
        ensures { result ≡ rejoin_among (with_chosen false self.now.control.operation.extended_pan_id.0 self.now.control.nlme.nib.capability_information self.now) }
    {
        let mut state = *self;
        let require_permit_joining = false;
        state.candidates = tries::chosen_from(
            state.table,
            state.control.nlme.nib.stack_profile,
            state.control.operation.extended_pan_id,
            state.control.nlme.nib.capability_information,
            require_permit_joining,
        );
        let next = state.next();
        state.decided_on(rejoin::try_next(state.control, NlmeJoinStatus::NotPermitted, next))
    }

    #[tactic(auto, unfolding(crate::specs::Calls::scan_failed))]
    fn scan_failed(&self, purpose: ScanFor) -> Answer
        ensures { result ≡ scan_failed purpose self.now }
    {
        match purpose {
            ScanFor::Discovery => self.end_discovery(Step::DiscoveryFailed),
            ScanFor::Rejoin => self.fail_join(NlmeJoinStatus::MacError),
        }
    }

    // The table is made from the scan: a discovery ends, a rejoin goes on to its candidates.
    #[tactic(auto, unfolding(crate::specs::Calls::scan_heard))]
    fn scan_heard(&self, purpose: ScanFor) -> Answer
        ensures { result ≡ scan_heard purpose self.now }
    {
        match purpose {
            ScanFor::Discovery => self.end_discovery(Step::Discovered),
            ScanFor::Rejoin => self.try_candidates(),
        }
    }

    // A scan that has failed, or its list; one that is too long is turned down.
    #[tactic(auto, unfolding(crate::specs::Calls::scan_decided))]
    fn decide_scan(
        &self,
        purpose: ScanFor,
        outcome: Result<PanDescriptorList, MacError>,
        clock: u32,
    ) -> Answer
        ensures { result ≡ scan_decided outcome clock purpose self.now }
    {
        let Ok(list) = outcome else {
            return self.scan_failed(purpose);
        };
        if MAX_PAN_DESCRIPTOR_SIZE < list.count {
            return self.refuse(Refusal::TooManyDescriptors);
        }
        if MAX_SHORT_ADDRESSED < discovery::short_addressed(list) {
            return self.refuse(Refusal::TooManyShortAddressed);
        }
        let mut state = *self;
        state.table = discovery::neighbor_table_from(list, clock);
        state.scan_heard(purpose)
    }

    #[tactic(auto, unfolding(crate::specs::Calls::answer, crate::specs::Refusals::outcome))]
    fn scan_answer(&self, outcome: Result<PanDescriptorList, MacError>, clock: u32) -> Answer
        ensures { result ≡ answer self.now (scan outcome clock) }
    {
        // The other three outcomes have this shape too: each takes what is awaited out of its own variant of `Phase`, and a pattern can't be handed to a
        // function.
        self.unless_bad(|| {
            let Phase::Scan(purpose) = self.control.operation.phase else {
                return self.refuse(Refusal::NotAwaited);
            };
            self.decide_scan(purpose, outcome, clock)
        })
    }

    // The outcome of a scan: a discovery is over, a rejoin goes on. Above 27 descriptors it is turned down by 3, above 16 short-addressed ones by 4; then the
    // radio's outcome is still awaited. Each neighbour that was heard was last heard at `clock`.
    #[tactic(auto, unfolding(crate::specs::Calls::scanned))]
    pub fn scan_over(self, outcome: Result<PanDescriptorList, MacError>, clock: u32) -> ScanAnswer
        ensures { result ≡ scanned outcome clock self }
    {
        let answer = self.scan_answer(outcome, clock);
        let confirm = confirm_by(answer.step, outcome);
        ScanAnswer { answer, confirm }
    }
}

// The confirm of a discovery that has heard; there is none with any other answer.
fn confirm_by(
    step: Step,
    outcome: Result<PanDescriptorList, MacError>,
) -> Option<NlmeNetworkDiscoveryConfirm>
    ensures { result ≡ confirm_by step outcome }
{
    let list = outcome.ok()?;
    if !operation::is_discovered(step) {
        return None;
    }
    Some(discovery::network_descriptors(list))
}

// The outcomes of an association, and of a poll or a receive.
impl State {
    // The outcome of an association: `Joined`, or the next candidate is asked.
    #[tactic(auto, unfolding(crate::specs::Calls::answer, crate::specs::Refusals::outcome))]
    pub fn association_over(self, outcome: Result<AssociationResponse, MacError>) -> Answer
        ensures { result ≡ answer self (association outcome) }
    {
        self.unless_bad(|| {
            let Phase::Association = self.control.operation.phase else {
                return self.refuse(Refusal::NotAwaited);
            };
            let tried = self.tried();
            let next = self.next();
            let decision = association::decide_association(self.control, outcome, tried, next);
            self.decided_on(decision)
        })
    }

    // What a poll or a receive was for goes on.
    fn go_on(&self, purpose: ReceptionFor, answer: PollAnswer) -> Decision
        ensures { result ≡ continuing purpose answer (parent self.now) (next self.now) self.now.control }
    {
        continuing(self.control, purpose, answer, self.parent(), self.next())
    }

    // The table without the neighbour that a frame removes.
    #[tactic(auto, unfolding(crate::specs::Calls::table_changed))]
    fn change_table(mut self, removed: Option<ShortAddress>) -> State
        ensures { result ≡ table_changed removed self }
    {
        if let Some(address) = removed {
            self.table = neighbor_table::retain(self.table, address);
        }
        self
    }

    // A frame is dealt with: the poll goes on, or a leave is announced first.
    #[tactic(auto, unfolding(crate::specs::Calls::after_frame))]
    fn after_frame(&self, purpose: ReceptionFor, then: Then) -> Answer
        ensures { result ≡ after_frame purpose then self.now }
    {
        match then {
            Then::Over(answer) => self.decided_on(self.go_on(purpose, answer)),
            Then::Announce(announcement) => {
                self.decided_on(operation::announce(self.control, purpose, announcement))
            }
        }
    }

    fn handled_on(&self, purpose: ReceptionFor, handled: Handled) -> Answer
        ensures { result ≡ handled_on purpose handled self.now }
    {
        let mut state = *self;
        state.control = operation::with_nlme(state.control, handled.nlme);
        state
            .change_table(handled.removed)
            .after_frame(purpose, handled.then)
    }

    // A frame is dealt with once its sender was heard.
    fn frame_received(&self, purpose: ReceptionFor, frame: ReceivedFrame, clock: u32) -> Answer
        ensures { result ≡ processed purpose frame (heard_on frame clock self.now) }
    {
        let mut state = *self;
        state.table = received::hear_sender(state.table, frame, clock);
        let parent = state.parent();
        let everyone = nib::NWK_BROADCAST_ALL;
        let broadcast = neighbor_table::neighbor_ieee_address(&state.table, everyone);
        let handled = received::process_received_nwk_frame(
            state.control.nlme,
            parent,
            broadcast,
            frame,
        );
        state.handled_on(purpose, handled)
    }

    // The outcome of a poll or a receive, with the frame that it brought. What it was for goes on; an accepted leave request is announced first
    // (`Ask(Transmit)`). The sender of a data or command frame was last heard at `clock`.
    #[tactic(auto, unfolding(crate::specs::Calls::answer, crate::specs::Refusals::outcome, crate::specs::Calls::reception_decided))]
    pub fn reception_over(
        self,
        outcome: Result<Option<ReceivedFrame>, MacError>,
        clock: u32,
    ) -> Answer
        ensures { result ≡ answer self (reception outcome clock) }
    {
        self.unless_bad(|| {
            let Phase::Reception(purpose) = self.control.operation.phase else {
                return self.refuse(Refusal::NotAwaited);
            };
            match outcome {
                Ok(None) => self.decided_on(self.go_on(purpose, exchange::no_data(purpose))),
                Ok(Some(frame)) => self.frame_received(purpose, frame, clock),
                Err(MacError) => self.decided_on(self.go_on(purpose, PollAnswer::PollMacError)),
            }
        })
    }
}

// What a poll or a receive was for goes on: a single one answers; a rejoin, a negotiation or a keepalive polls on.
#[tactic(auto, unfolding(crate::specs::Calls::continuing))]
fn continuing(
    control: Control,
    purpose: ReceptionFor,
    answer: PollAnswer,
    parent: Option<NwkNeighbor>,
    next: Option<NwkNeighbor>,
) -> Decision
    ensures { result ≡ continuing purpose answer parent next control }
{
    match purpose {
        ReceptionFor::RejoinResponse => rejoin::try_goes_on(control, parent, next),
        ReceptionFor::SinglePoll | ReceptionFor::SingleReceive => {
            exchange::end_poll(control, answer)
        }
        ReceptionFor::TimeoutResponse(timeout) => {
            negotiation::timeout_goes_on(control, timeout, parent)
        }
    }
}

// The outcome of a transmission.
impl State {
    // After the announcement of a leave; without the rejoin bit the table is cleared.
    #[tactic(auto, unfolding(crate::specs::Calls::after_leave))]
    fn after_leave(mut self, rejoin: bool) -> State
        ensures { result ≡ after_leave rejoin self }
    {
        let nlme = received::leave_announced(self.control.nlme, rejoin);
        self.control = operation::with_nlme(self.control, nlme);
        if !rejoin {
            self.table = NeighborTable::new();
        }
        self
    }

    // A leave is announced: what the poll was for goes on.
    #[tactic(auto, unfolding(crate::specs::Looks::deciding_with))]
    fn finish_leave(&self, leaving: Leaving) -> Answer
        ensures { result ≡ go_on (not leaving.rejoin) leaving.purpose PollAnswer.PollNothing (after_leave leaving.rejoin self.now) }
    {
        let after = self.after_leave(leaving.rejoin);
        let mut answer = after.decided_on(after.go_on(leaving.purpose, PollAnswer::PollNothing));
        answer.reset = !leaving.rejoin;
        answer
    }

    fn after_rejoin_request(&self, sent: bool) -> Answer
        ensures { result ≡ deciding self.now (request_sent sent (parent self.now) (next self.now) self.now.control) }
    {
        let parent = self.parent();
        let next = self.next();
        self.decided_on(rejoin::decide_request(self.control, sent, parent, next))
    }

    fn after_data(&self, sent: bool) -> Answer
        ensures { result ≡ deciding self.now (data_sent sent (parent self.now) self.now.control) }
    {
        let parent = self.parent();
        self.decided_on(exchange::decide_send(self.control, sent, parent))
    }

    fn after_timeout_request(&self, purpose: TimeoutFor, sent: bool) -> Answer
        ensures { result ≡ deciding self.now (timeout_request_sent purpose sent (parent self.now) self.now.control) }
    {
        let parent = self.parent();
        self.decided_on(negotiation::decide_timeout_request(self.control, purpose, sent, parent))
    }

    // By what the transmission was for.
    #[tactic(auto, unfolding(crate::specs::Calls::transmission_decided))]
    fn decide_transmission(&self, purpose: TransmissionFor, sent: bool) -> Answer
        ensures { result ≡ transmission_decided sent purpose self.now }
    {
        match purpose {
            TransmissionFor::RejoinRequest => self.after_rejoin_request(sent),
            TransmissionFor::Data => self.after_data(sent),
            TransmissionFor::TimeoutRequest(timeout) => self.after_timeout_request(timeout, sent),
            TransmissionFor::Leave(leaving) => self.finish_leave(leaving),
        }
    }

    // The outcome of a transmission: whether the frame was sent. What it was for goes on. A `bool`, where the other three are a `Result`: nothing comes with a
    // frame that was sent, and of one that was not there is nothing more to say.
    #[tactic(auto, unfolding(crate::specs::Calls::answer, crate::specs::Refusals::outcome))]
    pub fn transmission_over(self, sent: bool) -> Answer
        ensures { result ≡ answer self (transmission sent) }
    {
        self.unless_bad(|| {
            let Phase::Transmission(purpose) = self.control.operation.phase else {
                return self.refuse(Refusal::NotAwaited);
            };
            self.decide_transmission(purpose, sent)
        })
    }
}

// The tick, the takings and the choice of candidates.
impl State {
    // So many milliseconds have passed since the last tick: `Expired(true)` where the parent's timer has just reached 0, which signals ParentLinkFailure, else
    // `Expired(false)`. 0 counts as 1. A timer interrupt that keeps the timer in a record of its own uses `lent_tick::tick_lent`.
    #[tactic(auto, unfolding(crate::specs::Calls::answer))]
    pub fn tick_parent_timeout(self, elapsed_ms: u32) -> Answer
        ensures { result ≡ answer self (elapsed elapsed_ms) }
    {
        self.decide_unless_bad(|| {
            exchange::decide_tick(self.control, self.parent(), elapsed_ms)
        })
    }

    // Restarts the parent's timer at the negotiated timeout: `Done`. For an owner who has other evidence that the parent still knows this device. Where no
    // timeout is negotiated the timer is inactive then. A timer interrupt with a record of its own loads it anew (`lent_tick::tick_lent`).
    #[tactic(auto, unfolding(crate::specs::Calls::refresh))]
    pub fn refresh_parent_timeout(self) -> Answer
        ensures { result ≡ refresh self }
    {
        self.decide_unless_bad(|| exchange::refresh_timeout(self.control))
    }

    // Takes the leave indication out of its slot: `LeaveTaken` with it, or with none.
    #[tactic(auto, unfolding(crate::specs::Calls::answer))]
    pub fn take_leave_indication(self) -> Answer
        ensures { result ≡ answer self take_leave }
    {
        self.decide_unless_bad(|| exchange::take_leave(self.control))
    }

    // Takes the status indication out of its slot: `StatusTaken` with it, or with none. Its only status is ParentLinkFailure.
    #[tactic(auto, unfolding(crate::specs::Calls::answer))]
    pub fn take_nwk_status_indication(self) -> Answer
        ensures { result ≡ answer self take_status }
    {
        self.decide_unless_bad(|| exchange::take_status(self.control))
    }

    // The candidates that a join (`require_permit_joining`) or a rejoin of a network would try now, in order: indexes in `table`, to be read by
    // `self.table.get(index)`. The state is not changed; refusal 5 has no list.
    #[tactic(auto, unfolding(crate::specs::Calls::choose))]
    pub fn select_candidates(
        self,
        extended_pan_id: ExtendedPanId,
        join_as_router: bool,
        require_permit_joining: bool,
    ) -> Result<CandidateList, Refusal>
        ensures { result ≡ choose extended_pan_id.0 join_as_router require_permit_joining self }
    {
        if let Some(refusal) = self.refusal() {
            return Err(refusal);
        }
        Ok(candidates::select_candidates(
            self.table,
            self.control.nlme.nib.stack_profile,
            extended_pan_id,
            join_as_router,
            require_permit_joining,
        ))
    }
}

// Queries: what was negotiated with the parent. They are no calls: they change nothing, and answer in every state.
impl State {
    // The keepalive that the parent expects; `NoKeepalive` where no timeout is negotiated.
    pub fn keepalive_method(self) -> KeepaliveMethod
        ensures { result ≡ keepalive_method self.control.nlme.nib.end_device_timeout self.control.nlme.nib.parent_information }
    {
        self.control.nlme.keepalive_method()
    }

    // The milliseconds between two keepalives, a third of the negotiated timeout, or none.
    pub fn keepalive_interval_ms(self) -> Option<u32>
        ensures { result ≡ keepalive_interval_ms self.control.nlme.nib.end_device_timeout }
    {
        self.control.nlme.keepalive_interval_ms()
    }

    // The milliseconds between two polls, where polls are the keepalive, or none.
    pub fn negotiated_poll_interval_ms(self) -> Option<u32>
        ensures { result ≡ negotiated_poll_interval_ms self.control.nlme.nib.end_device_timeout self.control.nlme.nib.parent_information }
    {
        self.control.nlme.negotiated_poll_interval_ms()
    }
}

// The neighbour page.
impl State {
    fn tell_page_written(&self) -> Answer
        ensures { result ≡ deciding self.now (telling Step.PageWritten self.now.control) }
    {
        self.decided_on(operation::telling(self.control, Step::PageWritten))
    }

    // Writes the neighbour table as text for the depot screen, 17 rows of 47 characters, each with a line feed, at the start of a lent buffer: `PageWritten`,
    // with the state as handed in. Refusal 6 for a buffer shorter than 816 bytes; after a refusal no byte of it has changed, and those past 816 never do.
    #[tactic(auto, unfolding(crate::specs::Calls::page_answer, crate::specs::Calls::page_left))]
    pub fn write_neighbor_page(self, page: &mut [u8]) -> Answer
        ensures { (result ≡ page_answer (length page.old) self) × (page.new ≡ page_left page.old self) }
    {
        // Tried as `unless_bad`, with a closure that borrows `page`: where it is not called nothing says that it left the page as it was, and the promise that
        // a refusal changes no byte stayed open.
        if self.is_bad() {
            return self.refuse(Refusal::BadState);
        }
        if !neighbor_page::write_page(page, self.table) {
            return self.refuse(Refusal::ShortPage);
        }
        self.tell_page_written()
    }
}
