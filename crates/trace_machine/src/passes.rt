// PASS.
ghost use Rattle.trace_machine.specs.Machine.{lent_of, Passes};

use crate::given::pass_input;
use crate::machine::{Machine, Step, passed, refused};
use trace_state::lent::Arrays;
use trace_words::request::PASS_WORDS;
use trace_words::words::Answer;

pub fn pass(m: Machine, lent: &mut Arrays, a: &mut Answer, w: &[u32]) -> Step
    ensures { Passes m w.now (lent_of lent.old) (lent_of lent.new) result }
{
    if w.len() < PASS_WORDS {
        return refused(m);
    }
    let p = m.panel;
    let input = p.input;
    let devices = p.devices;
    let given = pass_input(w);
    let begun = panel::pass::pass(
        input,
        devices,
        &mut lent.times,
        &mut lent.positions,
        &mut lent.codes,
        &mut lent.places,
        &mut lent.presses,
        given,
        &w[PASS_WORDS..],
    );
    passed(m, a, begun)
}
