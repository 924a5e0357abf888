// A call in plain text: one line that says when, what, and what came of it; the events of a pass stand below it.
use crate::counts::{Drags, Tally};
use crate::numbers::{factor, rested};
use crate::record::Record;
use std::fmt;
use std::fmt::Write;
use trace_events::clearing::is_clearing;
use trace_events::events::{event_count, events};
use trace_output::output::Output;
use trace_words::calls::Call;
use trace_words::request::{PASS_WORDS, at, id};

fn shifted(m: u64, by: u64) -> u64 {
    if by < 64 { m >> by } else { 0 }
}

// Whole milliseconds of a time, which is at least 0: its 53 digits times 1000, shifted by its exponent.
fn milliseconds(t: f64) -> u64 {
    let bits = ieee::bits::to_bits64(t);
    let exponent = bits / 0x10_0000_0000_0000 % 2048;
    let digits = bits % 0x10_0000_0000_0000 + 0x10_0000_0000_0000;
    if exponent > 1075 {
        return 0;
    }
    shifted(digits * 1000, 1075 - exponent)
}

// Seconds with three places.
fn time(out: &mut Output, t: f64) -> fmt::Result {
    let ms = milliseconds(t);
    write!(out, "{:>8}.{:03}  ", ms / 1000, ms % 1000)
}

fn name(call: Call) -> &'static str {
    match call {
        Call::Reset => "reset",
        Call::Pass => "pass",
        Call::Insert => "insert",
        Call::ClearWidgets => "clear",
        Call::Interact => "interact",
        Call::Ask => "ask",
        Call::Dump => "dump",
        Call::SetTally => "set tally",
        Call::Kernel => "kernel",
        Call::Rested => "rested",
        Call::Exp => "exponent",
        Call::Park => "park",
        Call::RestoreLast | Call::Restore => "restore",
    }
}

// What 01's table, with 02's numbers, says of a refusal.
// Kept (plain): the code is the number that stands in the answer, and any other has a meaning too: an enum for it would be one more table.
fn meaning(code: u32) -> &'static str {
    match code {
        1 => "unknown kind, field or stray bit, or cut short",
        2 => "a float outside the domain",
        3 => "the time given is below the panel's",
        4 => "event 65, or hit entry 65",
        5 => "no place for a device or touch",
        6 => "no place for a widget or layer",
        7 => "the widget is known on another layer",
        8 => "an id buffer, a lent slice, a feed or image buffer is too short",
        9 => "an id of 0",
        10 => "the tally of drag starts is full",
        11 => "the length is no multiple of 24 bytes",
        12 => "a slot outside 0 to 9",
        13 => "an exponent over 1 in size, or not a number",
        14 => "the first word is missing, or no image's",
        15 => "a word out of its range or order, missing or left over",
        _ => "no such call, or its words do not fit it; skipped",
    }
}

// What the index of a refusal counts: words of the feed or of the image, or entries of a hit list.
fn counted(call: Option<Call>) -> Option<&'static str> {
    match call {
        Some(Call::Pass | Call::Restore) => Some("word"),
        Some(Call::Interact) => Some("entry"),
        _ => None,
    }
}

fn refused(out: &mut Output, r: Record<'_>) -> fmt::Result {
    let code = r.reply.code;
    write!(out, "{:<10}refused {code}", r.call.map_or("?", name))?;
    if r.reply.words > 0 {
        if let Some(what) = counted(r.call) {
            write!(out, " at {what} {}", at(r.answer, 0))?;
        }
    }
    write!(out, ": {}", meaning(code))
}

// A clearing pass gives a time and a screen rectangle.
fn is_clearing_pass(w: &[u32], feed: &[u32]) -> bool {
    at(w, 0) % 4 == 3 && is_clearing(feed)
}

// So many of what is named, in the plural unless it is one.
#[derive(Clone, Copy)]
struct Several(u64, &'static str);

impl fmt::Display for Several {
    fn fmt<W: fmt::Write>(&self, f: &mut fmt::Formatter<W>) -> fmt::Result {
        let plural = if self.0 == 1 { "" } else { "s" };
        write!(f, "{} {}{plural}", self.0, self.1)
    }
}

// How many events there are, what is to be said of them, and each of them below.
fn all_events(out: &mut Output, note: &str, feed: &[u32]) -> fmt::Result {
    write!(out, "{}{note}", Several(event_count(feed), "event"))?;
    events(out, feed)
}

fn pass(out: &mut Output, w: &[u32]) -> fmt::Result {
    match w.get(PASS_WORDS..) {
        None => Ok(()),
        Some(feed) => {
            let clearing = is_clearing_pass(w, feed);
            all_events(out, if clearing { ", a clearing pass" } else { "" }, feed)
        }
    }
}

// Words of a KERNEL's answer before the feed's: whether a 'dropped' was among the records, and how many words were written.
const ANSWER_HEAD: usize = 2;

const RECORD_BYTES: u32 = 24;

// How many records there were, how many events they gave, and each of these below.
fn kernel(out: &mut Output, a: &[u32], w: &[u32]) -> fmt::Result {
    let records = u64::from(at(w, 3) / RECORD_BYTES);
    write!(out, "{}, ", Several(records, "record"))?;
    match a.get(ANSWER_HEAD..) {
        None => Ok(()),
        Some(feed) => {
            let dropped = at(a, 0) != 0;
            all_events(
                out,
                if dropped {
                    ", records were dropped"
                } else {
                    ""
                },
                feed,
            )
        }
    }
}

fn balance(out: &mut Output, d: Drags) -> fmt::Result {
    let going = if d.dragged { "one" } else { "none" };
    let verdict = if d.is_balanced() {
        "balanced"
    } else {
        "NOT BALANCED"
    };
    write!(
        out,
        "starts {}, stops {}, {going} dragged: {verdict}",
        d.starts, d.stops
    )
}

// What an interact may do to a widget, in the order of its answer.
const DONE: [&str; 5] = [
    "clicked",
    "long touched",
    "drag started",
    "dragged",
    "drag stopped",
];

fn snapshot(out: &mut Output, a: &[u32], d: Drags) -> fmt::Result {
    for (what, words) in DONE.iter().zip(a.chunks_exact(2)) {
        let widget = id(words, 0, 1);
        if widget != 0 {
            write!(out, "{what} {widget}  ")?;
        }
    }
    balance(out, d)
}

fn inserted(out: &mut Output, a: &[u32]) -> fmt::Result {
    write!(
        out,
        "widget {} at {} of {}",
        id(a, 2, 3),
        at(a, 0),
        at(a, 1)
    )
}

// What is said of a call beside its name, if more is.
fn detail(out: &mut Output, call: Call, r: Record<'_>, t: Tally) -> fmt::Result {
    match call {
        Call::Pass => pass(out, r.asked),
        Call::Kernel => kernel(out, r.answer, r.asked),
        Call::Insert => inserted(out, r.answer),
        Call::Interact => snapshot(out, r.answer, t.drags),
        Call::Rested => rested(out, r.answer),
        Call::Exp => factor(out, r.answer, r.asked),
        Call::Park => write!(out, "{}", Several(r.reply.words as u64, "word")),
        Call::Restore => write!(out, "{}", Several(r.asked.len() as u64, "word")),
        _ => out.write_str("what was parked last"),
    }
}

fn taken(out: &mut Output, call: Call, r: Record<'_>, t: Tally) -> fmt::Result {
    match call {
        Call::Reset | Call::ClearWidgets | Call::Ask | Call::Dump | Call::SetTally => {
            out.write_str(name(call))
        }
        _ => {
            write!(out, "{:<10}", name(call))?;
            detail(out, call, r, t)
        }
    }
}

// A number that is no call's is never taken.
pub fn line(out: &mut Output, now: f64, r: Record<'_>, t: Tally) -> fmt::Result {
    time(out, now)?;
    match r.call {
        Some(call) if r.reply.code == 0 => taken(out, call, r, t)?,
        _ => refused(out, r)?,
    }
    out.write_str("\n")
}

// The last line: where the trace ends.
pub fn end(out: &mut Output, cut: bool, t: Tally) -> fmt::Result {
    if cut {
        out.write_str("the trace ends inside a call\n")?;
    }
    write!(out, "{} calls; ", t.calls)?;
    balance(out, t.drags)?;
    out.write_str("\n")
}
