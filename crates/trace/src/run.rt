// A whole trace: read, replayed, answered.
use crate::call::call;
use crate::memory::Memory;
use key_state::keys::PRESSES;
use panel::clock::time;
use std::fmt;
use std::fmt::Write;
use trace_machine::machine::{Machine, fresh};
use trace_output::input;
use trace_output::input::{WORDS, read};
use trace_output::output::Output;
use trace_text::counts::Tally;
use trace_text::record::Record;
use trace_text::sums::{head, sum};
use trace_text::text;
use trace_words::calls::Call;
use trace_words::request::at;
use trace_words::words::Answer;

const STDERR_FILENO: i32 = 2;

// How the answers are written.
#[derive(Clone, Copy)]
pub enum Form {
    Whole,
    Sums,
    Text,
}

// A record passes the limit: whether the trace does, since it has these words too.
fn say_if_longer(request: &mut input::Record, left: usize) {
    if read(request, left).is_some() {
        io::write_all(
            STDERR_FILENO,
            b"the trace is longer than 1 MiB: what follows is not replayed\n",
        );
    }
}

// How many words follow a record's first, at most.
const LENGTHS: u32 = 0x100_0000;

fn whole(out: &mut Output, r: Record<'_>) -> fmt::Result {
    out.word(head(r.reply));
    for w in r.answer {
        out.word(*w);
    }
    Ok(())
}

// The time that a line of text gives.
fn now(m: Machine) -> f64 {
    time(m.panel.input.clock)
}

// What is carried from call to call.
#[derive(Clone, Copy)]
struct Going {
    machine: Machine,
    tally: Tally,
}

fn answered(before: Going, out: &mut Output, form: Form, machine: Machine, r: Record<'_>) -> Going {
    let tally = before.tally.counted(r);
    // the output takes every text
    let _ = match form {
        Form::Whole => whole(out, r),
        Form::Sums => writeln!(out, "{:016x}", sum(r.answer, r.reply)),
        Form::Text => text::line(out, now(machine), r, tally),
    };
    Going { machine, tally }
}

// Kept (plain): the number as it stands in the trace, see `call`.
fn one_call(
    before: Going,
    memory: &mut Memory,
    answer: &mut Answer,
    out: &mut Output,
    form: Form,
    kind: u32,
    w: &[u32],
) -> Going {
    answer.clear();
    let step = call(before.machine, memory, answer, kind, w);
    // as many as the reply says
    let words = answer.words();
    let r = Record {
        call: Call::try_from(kind).ok(),
        asked: w,
        reply: step.reply,
        answer: &words[..step.reply.words.min(words.len())],
    };
    answered(before, out, form, step.machine, r)
}

fn ended(out: &mut Output, s: Going, form: Form, cut: bool) {
    if let Form::Text = form {
        // the output takes every text
        let _ = text::end(out, cut, s.tally);
    }
    out.flush();
}

fn start(presses: &mut [u8; PRESSES]) -> Going {
    Going {
        machine: fresh(presses),
        tally: Tally::default(),
    }
}

// Standard input, record by record, up to `limit` words. A record that is cut short or passes the limit ends the trace.
pub fn replay(form: Form, limit: usize) {
    let mut memory = Memory::default();
    let mut answer = Answer::new();
    let mut out = Output::new();
    let mut request = [0u32; WORDS];
    let mut s = start(&mut memory.lent.presses);
    let mut left = limit;
    // Ends where the input or the limit does. A for and no while let: a loop that reads has no measure but what is left of the limit, and would need
    // a proof of its own that says so.
    for _ in 0..u64::MAX {
        let Some(first) = read(&mut request, 1) else {
            break;
        };
        let head = at(first, 0);
        let len = (head % LENGTHS) as usize;
        if left <= len {
            ended(&mut out, s, form, true);
            say_if_longer(&mut request, left);
            return;
        }
        let Some(w) = read(&mut request, len) else {
            ended(&mut out, s, form, true);
            return;
        };
        s = one_call(
            s,
            &mut memory,
            &mut answer,
            &mut out,
            form,
            head / LENGTHS,
            w,
        );
        left -= len + 1;
    }
    ended(&mut out, s, form, false);
}
