// An answer's first word: 0, or why the call is refused, and how many words follow. Those are in the lent answer.
ghost use Rattle.std.specs.Prelude.{◌≡◌, Some};
ghost use Rattle.data.specs.Numbers.{Row, pass_row, insert_row, interact_row};
ghost use Rattle.trace_words.specs.Reply.{Answers};

use crate::words::Answer;
use data::refusal::{InsertRefusal, InteractRefusal, PassRefusal};

// Kept (plain): two numbers, as they are written: 0 is taken. No Result: either way both stand in an answer's first word.
#[derive(Clone, Copy)]
pub struct Reply {
    pub code: u32,
    pub words: usize,
}

// Why a call is refused, by its row of 01's "Answers of a refused call": the number, and the index in the rows that return one.
pub trait Refusal: Copy {
    ghost told: { Self → Row };

    fn code(self) -> u32
        ensures { result ≡ (told self).number };

    fn index(self) -> Option<usize>
        ensures { result ≡ (told self).index };
}

impl Refusal for PassRefusal {
    ghost told = { pass_row };

    fn code(self) -> u32 {
        self.number()
    }

    fn index(self) -> Option<usize> {
        match self {
            PassRefusal::Malformed(i) => Some(i),
            PassRefusal::OutsideDomain(i) => Some(i),
            PassRefusal::TimeBelow => None,
            PassRefusal::TooManyEvents(i) => Some(i),
            PassRefusal::NoPlace(i) => Some(i),
        }
    }
}

impl Refusal for InsertRefusal {
    ghost told = { insert_row };

    fn code(self) -> u32 {
        self.number()
    }

    fn index(self) -> Option<usize> {
        match self {
            InsertRefusal::Malformed => Some(0),
            InsertRefusal::OutsideDomain => Some(0),
            InsertRefusal::Full => None,
            InsertRefusal::OtherLayer => None,
            InsertRefusal::ShortSlice => None,
            InsertRefusal::ZeroId => None,
        }
    }
}

impl Refusal for InteractRefusal {
    ghost told = { interact_row };

    fn code(self) -> u32 {
        self.number()
    }

    fn index(self) -> Option<usize> {
        match self {
            InteractRefusal::Malformed(i) => Some(i),
            InteractRefusal::TooManyHits(i) => Some(i),
            InteractRefusal::ShortBuffer => None,
            InteractRefusal::ZeroId => None,
            InteractRefusal::TallyFull => None,
        }
    }
}

// The request doesn't follow the format.
pub const MALFORMED: u32 = 255;

pub fn malformed() -> Reply
    ensures { (result.code ≡ 255) × (result.words ≡ 0) }
{
    refused(MALFORMED)
}

pub fn taken(words: usize) -> Reply
    ensures { (result.code ≡ 0) × (result.words ≡ words) }
{
    Reply { code: 0, words }
}

// Kept (plain): the number as it is written: the refusals come from the enums of several crates, and 255 is none of theirs.
pub fn refused(number: u32) -> Reply
    ensures { (result.code ≡ number) × (result.words ≡ 0) }
{
    Reply {
        code: number,
        words: 0,
    }
}

// The answer is the index alone.
// Kept (plain): see `refused`.
pub fn refused_at(a: &mut Answer, number: u32, index: usize) -> Reply
    ensures { Answers (record { number = number; index = Some index }) a.old result a.new }
{
    a.clear();
    a.count(index);
    Reply {
        code: number,
        words: a.len(),
    }
}

pub fn refused_by<R: Refusal>(a: &mut Answer, why: R) -> Reply
    ensures { Answers (R.told why) a.old result a.new }
{
    a.clear();
    match why.index() {
        None => refused(why.code()),
        Some(i) => refused_at(a, why.code(), i),
    }
}
