// RESTORE and RESTORE_LAST.
ghost use Rattle.std.specs.Prelude.{◌≡◌, take};
ghost use Rattle.trace_machine.specs.Machine.{lent_of};
ghost use Rattle.trace_parking.specs.Calls.{code_of, AfterRestore, Restores};

use crate::park::{IMAGE_PLACES, Image};
use panel::state::Panel;
use parking::check::ImageRefusal;
use trace_machine::machine::{Machine, Step, refused, stepped};
use trace_state::lent::Arrays;
use trace_words::reply;
use trace_words::reply::{Reply, taken};
use trace_words::words::Answer;

// 02: a wrong or missing first word, and a wrong word.
const FIRST_WORD: u32 = 14;

const WRONG_WORD: u32 = 15;

fn restore_answer(a: &mut Answer, read: Result<Panel, ImageRefusal>) -> Reply
    ensures { result.code ≡ code_of read }
{
    match read {
        Ok(_) => taken(0),
        Err(ImageRefusal::FirstWord) => reply::refused(FIRST_WORD),
        Err(ImageRefusal::Word(i)) => reply::refused_at(a, WRONG_WORD, i),
    }
}

// After a restore.
fn restored(m: Machine, a: &mut Answer, read: Result<Panel, ImageRefusal>) -> Step
    ensures { AfterRestore m read result }
{
    let panel = read.unwrap_or(m.panel);
    stepped(m, Machine { panel, ..m }, restore_answer(a, read))
}

pub fn restore(m: Machine, lent: &mut Arrays, a: &mut Answer, w: &[u32]) -> Step
    ensures { Restores m w.now (lent_of lent.old) (lent_of lent.new) result }
{
    let read = parking::restore::restore(
        &mut lent.times,
        &mut lent.positions,
        &mut lent.codes,
        &mut lent.places,
        &mut lent.presses,
        w,
    );
    restored(m, a, read)
}

// From the image that the last park wrote. With a word, or where none was written, the request is out of the format.
pub fn restore_last(m: Machine, lent: &mut Arrays, image: &Image, a: &mut Answer, w: &[u32]) -> Step
    ensures { Restores m (take m.parked image.now) (lent_of lent.old) (lent_of lent.new) result }
{
    let n = m.parked;
    if w.len() > 0 {
        return refused(m);
    }
    if n == 0 {
        return refused(m);
    }
    if IMAGE_PLACES < n {
        return refused(m);
    }
    let all: &[u32] = image;
    restore(m, lent, a, &all[0..n])
}
