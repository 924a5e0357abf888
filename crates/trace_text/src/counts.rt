// Drags that a trace starts and stops.
use crate::record::Record;
use trace_words::calls::Call;
use trace_words::request::{at, id};

// Drags started and stopped since the panel was fresh, and whether one goes on.
#[derive(Clone, Copy, Default)]
pub struct Drags {
    pub starts: u64,
    pub stops: u64,
    pub dragged: bool,
}

// Calls so far; the drags now, and at the last park.
#[derive(Clone, Copy, Default)]
pub struct Tally {
    pub calls: u64,
    pub drags: Drags,
    pub parked: Drags,
}

impl Drags {
    // Each drag that started has stopped or goes on.
    pub fn is_balanced(self) -> bool {
        self.starts == self.stops.wrapping_add(u64::from(self.dragged))
    }

    // After a taken interact: its drag start and stop, if it names them.
    fn after(self, a: &[u32]) -> Drags {
        Drags {
            starts: self.starts.wrapping_add(u64::from(id(a, 4, 5) != 0)),
            stops: self.stops.wrapping_add(u64::from(id(a, 8, 9) != 0)),
            dragged: id(a, 6, 7) != 0,
        }
    }

    // The past is not known: a drag that goes on has started.
    fn anew(dragged: bool) -> Drags {
        Drags {
            starts: u64::from(dragged),
            stops: 0,
            dragged,
        }
    }
}

// docs/IMAGE.md: the word of an image that says whether a widget is dragged.
const IS_DRAGGED: usize = 238;

impl Tally {
    fn changed(self, r: Record<'_>) -> Tally {
        let drags = match r.call {
            Some(Call::Interact) => self.drags.after(r.answer),
            Some(Call::Reset) => Drags::default(),
            Some(Call::RestoreLast) => self.parked,
            Some(Call::Restore) => Drags::anew(at(r.asked, IS_DRAGGED) != 0),
            _ => self.drags,
        };
        let parked = if r.call == Some(Call::Park) {
            drags
        } else {
            self.parked
        };
        Tally {
            drags,
            parked,
            ..self
        }
    }

    // After a call.
    pub fn counted(self, r: Record<'_>) -> Tally {
        let next = Tally {
            calls: self.calls.wrapping_add(1),
            ..self
        };
        if r.reply.code == 0 {
            next.changed(r)
        } else {
            next
        }
    }
}
