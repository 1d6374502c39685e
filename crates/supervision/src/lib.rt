// Parent supervision: the negotiated timeout, keepalives, and the count of failed sends.
#![tactic(auto)]

ghost use Rattle.std.specs.Prelude.{◌≡◌, ◌+◌, ◌<◌, ◌≤◌, [], length, position, get_or, set};
ghost use Rattle.lists.specs.Lists.{change_at};
ghost use Rattle.lists.specs.Private.{remove_at};
ghost use Rattle.supervision.specs.Timeouts.{timeout_seconds, negotiated_timeout_ms, refreshed_timer};
ghost use Rattle.supervision.specs.Keepalive.{keepalive_interval_ms, offered, keepalive_method, negotiated_poll_interval_ms};
ghost use Rattle.supervision.specs.Failures.{pairs_of, failures_of, blank_pair, of_address, one_more, counted_once, with_room, recorded, pair_removed, transmit_failed};

pub mod parent_timer;

use crate::parent_timer::{PARENT_TIMEOUT_INACTIVE, ParentTimer};
use nib::{MAX_NEIGBOUR_TABLE, ShortAddress};

// The timeout of an index, in seconds.
#[tactic(auto, unfolding(crate::specs::Timeouts::timeout_seconds))]
pub fn timeout_seconds(index: u8) -> Option<u32>
    ensures { result ≡ timeout_seconds index }
{
    match index {
        0 => Some(10),
        1..=14 => Some(120 << (index - 1)),
        _ => None,
    }
}

// The negotiated timeout in milliseconds.
#[tactic(auto, unfolding(crate::specs::Timeouts::negotiated_timeout_ms), using(crate::proofs::Periods::seconds_most))]
pub fn negotiated_timeout_ms(end_device_timeout: u8) -> Option<u32>
    ensures { result ≡ negotiated_timeout_ms end_device_timeout }
{
    let seconds = timeout_seconds(end_device_timeout)?;
    Some(seconds * 1000)
}

// The parent timer as it is restarted: inactive where no timeout was negotiated.
#[tactic(auto, unfolding(crate::specs::Timeouts::refreshed_timer))]
pub fn refresh_parent_timeout(end_device_timeout: u8) -> ParentTimer
    ensures { result ≡ refreshed_timer end_device_timeout }
{
    let timeout = negotiated_timeout_ms(end_device_timeout);
    ParentTimer {
        remaining_ms: timeout.unwrap_or(PARENT_TIMEOUT_INACTIVE),
    }
}

// The interval between keepalives in milliseconds: three in each timeout.
#[tactic(auto, unfolding(crate::specs::Keepalive::keepalive_interval_ms))]
pub fn keepalive_interval_ms(end_device_timeout: u8) -> Option<u32>
    ensures { result ≡ keepalive_interval_ms end_device_timeout }
{
    negotiated_timeout_ms(end_device_timeout).map(|ms| ms / 3)
}

// The keepalive that the parent expects; the source's `None` is `NoKeepalive`.
// A case of its own and no `Option`: the source's enum has it, and callers decide among the three in one `match`.
#[derive(Clone, Copy)]
pub enum KeepaliveMethod {
    // a poll
    MacDataPoll,
    // an end device timeout request
    TimeoutRequest,
    // none: no timeout is negotiated, or the parent takes neither
    NoKeepalive,
}

// The method that the parent information names: bit 0 offers polls, bit 1 the timeout request. Each is read in this one place.
#[tactic(auto, unfolding(crate::specs::Keepalive::offered))]
fn offered_method(parent_information: u8) -> KeepaliveMethod
    ensures { result ≡ offered parent_information }
{
    if parent_information % 2 == 1 {
        return KeepaliveMethod::MacDataPoll;
    }
    if parent_information / 2 % 2 == 1 {
        return KeepaliveMethod::TimeoutRequest;
    }
    KeepaliveMethod::NoKeepalive
}

// The keepalive method; none without a negotiated timeout.
#[tactic(auto, unfolding(crate::specs::Keepalive::keepalive_method))]
pub fn keepalive_method(end_device_timeout: u8, parent_information: u8) -> KeepaliveMethod
    ensures { result ≡ keepalive_method end_device_timeout parent_information }
{
    match timeout_seconds(end_device_timeout) {
        None => KeepaliveMethod::NoKeepalive,
        Some(_) => offered_method(parent_information),
    }
}

// The interval between polls in milliseconds, where polls are the keepalive.
#[tactic(auto, unfolding(crate::specs::Keepalive::negotiated_poll_interval_ms))]
pub fn negotiated_poll_interval_ms(end_device_timeout: u8, parent_information: u8) -> Option<u32>
    ensures { result ≡ negotiated_poll_interval_ms end_device_timeout parent_information }
{
    match keepalive_method(end_device_timeout, parent_information) {
        KeepaliveMethod::MacDataPoll => keepalive_interval_ms(end_device_timeout),
        KeepaliveMethod::TimeoutRequest | KeepaliveMethod::NoKeepalive => None,
    }
}

// How many failures without a success between them are a failure of the link.
pub const MAX_PARENT_TRANSMIT_FAILURES: u8 = 3;

// A neighbour, and how many data sends through it failed since the last that succeeded.
#[derive(Clone, Copy, Default)]
pub struct TransmitFailure {
    // its short address
    pub address: ShortAddress,
    // how many sends failed
    pub count: u8,
}

// The pairs of address and count: the first `count` are in use, the oldest first.
// An array with a count: there is no heap. Any count may be handed in: a type that bounds it would ask of the caller what refusal 5 answers now.
#[derive(Clone, Copy)]
pub struct TransmitFailures {
    // the pairs, the oldest first
    pub pairs: [TransmitFailure; MAX_NEIGBOUR_TABLE as usize],
    // how many are in use
    pub count: u8,
}

impl TransmitFailures {
    // No pairs.
    pub fn new() -> TransmitFailures
        ensures { result ≡ failures_of [] }
    {
        let pairs = [TransmitFailure::default(); MAX_NEIGBOUR_TABLE as usize];
        TransmitFailures { pairs, count: 0 }
    }

    // The pairs in use: as many as the count says, all 16 where it says more.
    pub fn used(&self) -> &[TransmitFailure]
        ensures { result.now ≡ pairs_of self.now }
    {
        lists::in_use(&self.pairs, self.count as usize)
    }

    // The place of the first pair of an address.
    fn find(&self, neighbor: ShortAddress) -> Option<usize>
        ensures { result ≡ position (of_address neighbor) (pairs_of self.now) }
    {
        self.used().iter().position(|p| p.address == neighbor)
    }

    // One pair more behind those in use, as `NeighborTable::add` has for entries: one for both would be handed the array and the count, and be no shorter.
    fn push(&mut self, p: TransmitFailure)
        requires { self.old.count < MAX_NEIGBOUR_TABLE }
        ensures { self.new ≡ record { pairs = set self.old.pairs self.old.count p; count = self.old.count + 1 } }
    {
        self.pairs[self.count as usize] = p;
        self.count += 1;
    }

    // The pairs without the one at a place; all of them where none is there. Unused slots are blank.
    fn without(&self, place: usize) -> TransmitFailures
        ensures { result ≡ failures_of (remove_at place (pairs_of self.now)) }
    {
        let mut out = TransmitFailures::new();
        for (i, p) in self.used().iter().enumerate() {
            if i != place {
                out.push(*p);
            }
        }
        out
    }

    // The pairs in use, with blank slots behind them: no pair stands at the place behind the last.
    fn blank_unused(&self) -> TransmitFailures
        ensures { result ≡ failures_of (pairs_of self.now) }
    {
        self.without(self.used().len())
    }

    // The pair at a place counts one failure more; a count of 255 stays.
    fn count_at(&self, place: usize) -> Recorded
        requires { place < length (pairs_of self.now) }
        ensures { result ≡ record {
          failures = failures_of (change_at place counted_once (pairs_of self.now));
          total = one_more (get_or (pairs_of self.now) place blank_pair).count;
        } }
    {
        let mut failures = self.blank_unused();
        let total = failures.pairs[place].count.saturating_add(1);
        failures.pairs[place].count = total;
        Recorded { failures, total }
    }

    // The pairs with room for one more: of 16 the oldest goes.
    fn with_room(&self) -> TransmitFailures
        ensures pairs { result ≡ failures_of (with_room (pairs_of self.now)) }
        ensures room { result.count < MAX_NEIGBOUR_TABLE }
    {
        if self.used().len() < self.pairs.len() {
            self.blank_unused()
        } else {
            self.without(0)
        }
    }
}

// The pairs after one more failure, and the neighbour's count. Both always stand, so this is no Option.
#[derive(Clone, Copy)]
pub struct Recorded {
    // the pairs then
    pub failures: TransmitFailures,
    // the neighbour's count then
    pub total: u8,
}

// The pairs after a failed send, and whether the link counts as failed. Both always stand, so this is no Option.
#[derive(Clone, Copy)]
pub struct FailedSend {
    // the pairs then
    pub failures: TransmitFailures,
    // whether this failure is one too many
    pub link_failed: bool,
}

// Counts one more failed send to a neighbour.
pub fn record_transmit_failure(failures: TransmitFailures, neighbor: ShortAddress) -> Recorded
    ensures { result ≡ recorded failures neighbor }
{
    if let Some(place) = failures.find(neighbor) {
        return failures.count_at(place);
    }
    let mut failures = failures.with_room();
    failures.push(TransmitFailure {
        address: neighbor,
        count: 1,
    });
    Recorded { failures, total: 1 }
}

// Drops a neighbour's pair.
pub fn clear_transmit_failures(
    failures: TransmitFailures,
    neighbor: ShortAddress,
) -> TransmitFailures
    ensures { result ≡ pair_removed failures neighbor }
{
    match failures.find(neighbor) {
        Some(place) => failures.without(place),
        None => failures.blank_unused(),
    }
}

// A send by way of the parent has failed.
#[tactic(auto, unfolding(crate::specs::Failures::transmit_failed))]
pub fn transmit_failed(failures: TransmitFailures, neighbor: ShortAddress) -> FailedSend
    ensures { result ≡ transmit_failed failures neighbor }
{
    let Recorded { failures, total } = record_transmit_failure(failures, neighbor);
    if total < MAX_PARENT_TRANSMIT_FAILURES {
        return FailedSend {
            failures,
            link_failed: false,
        };
    }
    FailedSend {
        failures: clear_transmit_failures(failures, neighbor),
        link_failed: true,
    }
}
