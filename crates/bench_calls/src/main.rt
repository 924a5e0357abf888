// Runs one kind of call many times, for the table that bench/run.sh prints. Standard input is words of 32 bits, the low byte first: which kind, how
// often, three numbers, how many words follow, and those. compare/src/bench.rs runs the same requests on egui and prints the same number.
#![tactic(auto)]

mod asks;
mod exponents;
mod inserts;
mod interacts;
mod parkings;
mod passes;
mod roots;
mod sums;

use data::limits::MAX_EVENTS;
use inserts::Mode;

const STDIN_FILENO: i32 = 0;

const STDOUT_FILENO: i32 = 1;

// The longest feed: an event has at most 8 words.
const WORDS: usize = 8 * MAX_EVENTS;

// What is run, by the request's number; any number of none is the questions'.
#[derive(Clone, Copy)]
enum Kind {
    Passes,
    Inserts,
    Interacts,
    Roots32,
    Roots64,
    Exponents,
    Parkings,
    Asks,
}

impl From<u32> for Kind {
    fn from(number: u32) -> Kind {
        match number {
            0 => Kind::Passes,
            1 => Kind::Inserts,
            2 => Kind::Interacts,
            4 => Kind::Roots32,
            5 => Kind::Roots64,
            6 => Kind::Exponents,
            7 => Kind::Parkings,
            _ => Kind::Asks,
        }
    }
}

#[derive(Clone, Copy)]
struct Request {
    kind: Kind,
    times: u32,
    a: u32,
    b: u32,
    c: u32,
}

// The next word of standard input, 0 after its end.
fn next() -> u32 {
    let mut bytes = [0u8; 4];
    if io::read_full(STDIN_FILENO, &mut bytes) < 4 {
        return 0;
    }
    u32::from_le_bytes(bytes)
}

fn read(words: &mut [u32]) {
    for w in words.iter_mut() {
        *w = next();
    }
}

fn run(q: Request, words: &[u32]) -> u64 {
    match q.kind {
        Kind::Passes => passes::run(q.times, words),
        Kind::Inserts => inserts::run(q.times, q.a, q.b, Mode::from(q.c)),
        Kind::Interacts => interacts::run(q.times, words, q.a, q.b, q.c),
        Kind::Roots32 => roots::run32(q.times),
        Kind::Roots64 => roots::run64(q.times),
        Kind::Exponents => exponents::run(q.times),
        Kind::Parkings => parkings::run(q.times, words, q.a, q.b),
        Kind::Asks => asks::run(q.times, words),
    }
}

fn main() {
    let mut words = [0u32; WORDS];
    let q = Request {
        kind: Kind::from(next()),
        times: next(),
        a: next(),
        b: next(),
        c: next(),
    };
    let n = WORDS.min(next() as usize);
    read(&mut words[..n]);
    let sum = run(q, &words[..n]);
    io::print_decimal(STDOUT_FILENO, sum);
    io::write_all(STDOUT_FILENO, b"\n");
}
