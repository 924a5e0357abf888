// The panel, the widget set, the kernel's slots and the length of the last image between two calls; the lent arrays stand beside them.
ghost use Rattle.std.specs.Prelude.{◌≡◌};
ghost use Rattle.trace_machine.specs.Machine.{with_kernel, step, stepped, Starts, Resets, AfterPass};

use data::refusal::PassRefusal;
use input_pass::begin::Begun;
use kernel_touch::slots::KernelTouches;
use key_state::keys::PRESSES;
use panel::state::{Panel, after_pass};
use panel::widgets::empty;
use trace_words::reply::{Reply, malformed, refused_by, taken};
use trace_words::words::Answer;
use widget_index::table::WidgetRects;

#[derive(Clone, Copy)]
pub struct Machine {
    pub panel: Panel,
    pub set: WidgetRects,
    pub kernel: KernelTouches,
    // Kept (plain): how many words the last image has, 0 where none was written. No Option: RESTORE_LAST takes so many of its words.
    pub parked: usize,
}

// Kept (plain): what a call makes of the machine, and its answer. No Result: a refused call has both too.
#[derive(Clone, Copy)]
pub struct Step {
    pub machine: Machine,
    pub reply: Reply,
}

// A fresh panel, an empty set, empty slots and no image. The lent presses are cleared.
pub fn fresh(presses: &mut [u8; PRESSES]) -> Machine
    ensures { Starts presses.new result × (result.parked ≡ 0) }
{
    let panel = panel::state::fresh(presses);
    let set = empty();
    let kernel = KernelTouches::fresh();
    Machine {
        panel,
        set,
        kernel,
        parked: 0,
    }
}

// A call that is refused leaves the machine `m` as it was.
pub fn stepped(m: Machine, after: Machine, reply: Reply) -> Step
    ensures { result ≡ stepped m after reply }
{
    if reply.code == 0 {
        return Step {
            machine: after,
            reply,
        };
    }
    Step { machine: m, reply }
}

// The request doesn't follow the format.
pub fn refused(m: Machine) -> Step
    ensures { (result.reply.code ≡ 255) × (result.machine ≡ m) }
{
    kept(m, malformed())
}

// RESET has no words.
fn reset_reply(words: usize) -> Reply
    ensures { (words ≡ 0 → result.code ≡ 0) × ((words ≡ 0 → ⊥) → result.code ≡ 255) }
{
    if words > 0 {
        return malformed();
    }
    taken(0)
}

// RESET: a fresh machine; the last image stays. Refused, the presses are as before.
pub fn reset(m: Machine, presses: &mut [u8; PRESSES], w: &[u32]) -> Step
    ensures { Resets m w.now presses.old presses.new result }
{
    let reply = reset_reply(w.len());
    if reply.code != 0 {
        return kept(m, reply);
    }
    let started = fresh(presses);
    let machine = Machine {
        parked: m.parked,
        ..started
    };
    kept(machine, reply)
}

// After a pass. Taken, it has no words to answer.
pub fn passed(m: Machine, a: &mut Answer, begun: Result<Begun, PassRefusal>) -> Step
    ensures { AfterPass m begun result }
{
    match begun {
        Err(why) => kept(m, refused_by(a, why)),
        Ok(_) => {
            let panel = after_pass(m.panel, begun);
            kept(Machine { panel, ..m }, taken(0))
        }
    }
}

// The answer alone.
pub fn kept(m: Machine, reply: Reply) -> Step
    ensures { result ≡ step m reply }
{
    let machine = m;
    Step { machine, reply }
}

// Refused, the machine before.
pub fn with_kernel(m: Machine, kernel: KernelTouches, reply: Reply) -> Step
    ensures { result ≡ stepped m (with_kernel m kernel) reply }
{
    stepped(m, Machine { kernel, ..m }, reply)
}
