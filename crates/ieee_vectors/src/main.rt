// Compares `narrow`, `sqrt32` and `sqrt64` with pairs of bit patterns that another machine made
// (compare/vectors/ieee.rs), and prints how many differ. A pair is two little-endian words of 64
// bits, the operand's pattern and the result's, and each function has as many chunks of them.
// Every NaN counts as one.
#![tactic(auto)]

mod pairs;

use pairs::{Kind, PAIR};

const STDIN_FILENO: i32 = 0;

const STDOUT_FILENO: i32 = 1;

// of each function
const CHUNKS: usize = 6;

#[derive(Clone, Copy, Default)]
struct Tally {
    pairs: u64,
    differ: u64,
}

impl Tally {
    // One chunk more, of at most 65,536 bytes.
    fn read(&mut self, kind: Kind) {
        let mut buf = io::large_buffer();
        let n = io::read_full(STDIN_FILENO, &mut buf);
        self.pairs = self.pairs.wrapping_add((n / PAIR) as u64);
        self.differ = self.differ.wrapping_add(kind.differ(&buf[..n]));
    }
}

fn report(name: &[u8], kind: Kind) {
    let mut all = Tally::default();
    for _ in 0..CHUNKS {
        all.read(kind);
    }
    io::write_all(STDOUT_FILENO, name);
    io::print_decimal(STDOUT_FILENO, all.pairs);
    io::write_all(STDOUT_FILENO, b" pairs, ");
    io::print_decimal(STDOUT_FILENO, all.differ);
    io::write_all(STDOUT_FILENO, b" differ\n");
}

fn main() {
    report(b"narrow: ", Kind::Narrow);
    report(b"sqrt32: ", Kind::Sqrt32);
    report(b"sqrt64: ", Kind::Sqrt64);
}
