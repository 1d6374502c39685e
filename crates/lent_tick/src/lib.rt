// The tick of the timer interrupt, which lends its timer record and finds it updated there: by value, and over the lent record.
#![tactic(auto)]

ghost use Rattle.std.specs.Prelude.{◌≡◌};
ghost use Rattle.lent_tick.specs.LentTick.{with_parent_timer, with_record, lent_tick};
ghost use Rattle.lent_tick.specs.Private.{with_state};

use node::{Answer, State};
use operation::Step;
use supervision::parent_timer::ParentTimer;

// What a tick leaves in the lent record, and what it answers.
#[derive(Clone, Copy)]
pub struct LentTicked {
    // the lent record then
    pub timer: ParentTimer,
    // what the tick answers
    pub answer: Answer,
}

fn with_parent_timer(mut state: State, timer: ParentTimer) -> State
    ensures { result ≡ with_parent_timer timer state }
{
    state.control.nlme.parent_timer = timer;
    state
}

// A tick that was turned down: the state as handed in, and the record as it was lent.
fn turned_down(state: State, timer: ParentTimer, refused: Answer) -> LentTicked
    ensures { result ≡ record { timer = timer; answer = with_state state refused } }
{
    LentTicked {
        timer,
        answer: Answer { state, ..refused },
    }
}

// A tick that was made: the record of the state that is answered goes into the lent one.
fn with_record(answer: Answer) -> LentTicked
    ensures { result ≡ with_record answer }
{
    LentTicked {
        timer: answer.state.control.nlme.parent_timer,
        answer,
    }
}

// A tick of the state with this record in place of its own.
pub fn tick_with(timer: ParentTimer, state: State, elapsed_ms: u32) -> LentTicked
    ensures { result ≡ lent_tick timer elapsed_ms state }
{
    let lent = with_parent_timer(state, timer);
    let answer = lent.tick_parent_timeout(elapsed_ms);
    match answer.step {
        Step::Refused(_) => turned_down(state, timer, answer),
        _ => with_record(answer),
    }
}

// The timer interrupt lends its record and finds it updated there. The lent record counts in place of the state's own, which is not looked at: so whoever keeps
// a record of his own loads it anew from `state.control.nlme.parent_timer` of the answer after every call. At least he does so after those that may set the
// timer: `join`, `transmission_over`, `reception_over` and `refresh_parent_timeout`. A join zeroes only the state's own: an old record would count on, and
// signal a failure that is none. The state that is answered is kept as after any call: it holds the timer too, and the indication of an expiry.
//
// A tick is a call as any other: it may come between any two calls, also while an operation is under way, and not while another call on the state is still
// running. One that comes then is made after it. Several that waited may be made as one, with the sum of their milliseconds; one of 0
// counts as 1.
pub fn tick_lent(timer: &mut ParentTimer, state: State, elapsed_ms: u32) -> Answer
    ensures { (result ≡ (lent_tick timer.old elapsed_ms state).answer) × (timer.new ≡ (lent_tick timer.old elapsed_ms state).timer) }
{
    let after = tick_with(*timer, state, elapsed_ms);
    *timer = after.timer;
    after.answer
}
