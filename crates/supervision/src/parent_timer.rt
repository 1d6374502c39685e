// The parent timer: the local end-device timeout (Zigbee 3.6.10.6).
ghost use Rattle.std.specs.Prelude.{◌≡◌};
ghost use Rattle.supervision.specs.Timer.{inactive_timer, ticked};

// The milliseconds of a timer that is inactive: no timeout is negotiated, or it has expired.
pub const PARENT_TIMEOUT_INACTIVE: u32 = 0;

// The milliseconds that remain; at 0 the timer is inactive.
#[derive(Clone, Copy)]
pub struct ParentTimer {
    // the milliseconds until the parent forgets this device; 0 where the timer is inactive
    pub remaining_ms: u32,
}

// What a tick leaves, and whether the timer expired. Both always stand, so this is no Option.
#[derive(Clone, Copy)]
pub struct Ticked {
    // the timer then
    pub timer: ParentTimer,
    // whether it has just reached 0
    pub expired: bool,
}

impl ParentTimer {
    // An inactive timer.
    pub fn new() -> ParentTimer
        ensures { result ≡ inactive_timer }
    {
        ParentTimer {
            remaining_ms: PARENT_TIMEOUT_INACTIVE,
        }
    }

    // Takes off the elapsed milliseconds, at least 1, stopping at 0.
    #[tactic(auto, unfolding(crate::specs::Timer::ticked))]
    pub fn tick(self, elapsed_ms: u32) -> Ticked
        ensures { result ≡ ticked self elapsed_ms }
    {
        let remaining_ms = self.remaining_ms.saturating_sub(elapsed_ms.max(1));
        Ticked {
            timer: ParentTimer { remaining_ms },
            expired: self.remaining_ms != PARENT_TIMEOUT_INACTIVE
                && remaining_ms == PARENT_TIMEOUT_INACTIVE,
        }
    }
}
