// One call.
ghost use Rattle.trace.specs.Call.{arrays_of, Changes, Called};

use crate::exponent::exponent;
use crate::memory::Memory;
use panel::state::Panel;
use panel::widgets::empty;
use trace_answers::ask::ask;
use trace_answers::dump::dump;
use trace_answers::rested::rested;
use trace_interact::interact::interact;
use trace_kernel::kernel::kernel;
use trace_machine::machine::{Machine, Step, kept, refused, reset, stepped};
use trace_machine::passes::pass;
use trace_parking::park::park;
use trace_parking::restore::{restore, restore_last};
use trace_state::lent::Arrays;
use trace_widgets::insert::insert;
use trace_widgets::lent::SetArrays;
use trace_widgets::widgets::widgets;
use trace_words::calls::Call;
use trace_words::reply::{Reply, malformed, taken};
use trace_words::request::at;
use trace_words::words::Answer;
use widget_index::index::Table;

fn inserted(m: Machine, arrays: &mut SetArrays, a: &mut Answer, w: &[u32]) -> Step
    ensures { Changes arrays.old result arrays.new }
{
    let placed = insert(a, m.set, arrays, w);
    kept(
        Machine {
            set: placed.set,
            ..m
        },
        placed.reply,
    )
}

fn clear_widgets(m: Machine, w: &[u32]) -> Step {
    if w.len() > 0 {
        return kept(m, malformed());
    }
    kept(Machine { set: empty(), ..m }, taken(0))
}

fn set_tally(m: Machine, w: &[u32]) -> Step {
    if w.len() != 1 {
        return kept(m, malformed());
    }
    let panel = Panel {
        tally: at(w, 0),
        ..m.panel
    };
    kept(Machine { panel, ..m }, taken(0))
}

fn interacted(m: Machine, lent: &Arrays, arrays: &SetArrays, a: &mut Answer, w: &[u32]) -> Step {
    let table = Table {
        set: m.set,
        words: &arrays.words,
        numbers: &arrays.numbers,
    };
    let out = interact(a, m.panel, lent, table, w);
    kept(
        Machine {
            panel: out.panel,
            ..m
        },
        out.reply,
    )
}

fn asked(m: Machine, lent: &Arrays, a: &mut Answer, w: &[u32]) -> Reply {
    if w.len() > 0 {
        return malformed();
    }
    ask(a, m.panel, lent);
    taken(a.len())
}

fn dumped(m: Machine, lent: &Arrays, arrays: &SetArrays, a: &mut Answer, w: &[u32]) -> Reply {
    if w.len() > 0 {
        return malformed();
    }
    dump(a, m.panel, lent);
    widgets(a, m.set, arrays);
    taken(a.len())
}

fn rest(m: Machine, a: &mut Answer, w: &[u32]) -> Reply {
    if w.len() > 0 {
        return malformed();
    }
    rested(a, m.panel.input);
    taken(a.len())
}

// The calls that change no input. A new one is an arm here.
fn change(
    m: Machine,
    lent: &Arrays,
    arrays: &mut SetArrays,
    a: &mut Answer,
    call: Call,
    w: &[u32],
) -> Step
    ensures { Changes arrays.old result arrays.new }
{
    match call {
        Call::Insert => inserted(m, arrays, a, w),
        Call::ClearWidgets => clear_widgets(m, w),
        Call::Interact => interacted(m, lent, arrays, a, w),
        Call::Ask => kept(m, asked(m, lent, a, w)),
        Call::Dump => kept(m, dumped(m, lent, arrays, a, w)),
        Call::SetTally => set_tally(m, w),
        Call::Kernel => kernel(m, a, w),
        Call::Rested => kept(m, rest(m, a, w)),
        Call::Exp => kept(m, exponent(a, w)),
        _ => kept(m, malformed()),
    }
}

// One request.
// Kept (plain): its number as it stands in the trace: one that is no call's is answered too, and `Called` speaks of the number.
pub fn call(m: Machine, memory: &mut Memory, a: &mut Answer, kind: u32, w: &[u32]) -> Step
    ensures { Called m kind w.now (arrays_of memory.old) (arrays_of memory.new) result }
{
    match Call::try_from(kind) {
        Err(_) => refused(m),
        Ok(call) => match call {
            Call::Reset => reset(m, &mut memory.lent.presses, w),
            Call::Pass => pass(m, &mut memory.lent, a, w),
            Call::Park => park(m, &memory.lent, &mut memory.image, a, w),
            Call::RestoreLast => restore_last(m, &mut memory.lent, &memory.image, a, w),
            Call::Restore => restore(m, &mut memory.lent, a, w),
            _ => {
                let c = change(m, &memory.lent, &mut memory.set, a, call, w);
                stepped(m, c.machine, c.reply)
            }
        },
    }
}
