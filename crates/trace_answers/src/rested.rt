// RESTED: how long the pointer has rested.
use input_state::state::InputState;
use panel::pointer::time_since_last_movement;
use trace_words::words::Answer;

pub fn rested(a: &mut Answer, s: InputState) {
    a.maybe(time_since_last_movement(s.pointer, s.clock));
}
