// Replays stored cases through emath and says how many differ. Standard input is records of sixteen 32-bit words, the
// low byte first: a kind, what goes in, and the results of the stand-ins that egui runs with. compare/vectors writes them.
#![tactic(auto)]

mod cases;
mod record;

use cases::{State, Tally};

const STDIN_FILENO: i32 = 0;

const STDOUT_FILENO: i32 = 1;

// so that the loop ends
const MAX_RECORDS: u64 = 1_000_000;

fn print_count(name: &[u8], t: Tally) {
    io::write_all(STDOUT_FILENO, name);
    io::print_decimal(STDOUT_FILENO, t.cases);
    io::write_all(STDOUT_FILENO, b" cases, ");
    io::print_decimal(STDOUT_FILENO, t.differ);
    io::write_all(STDOUT_FILENO, b" differ\n");
}

fn replay_all() -> State {
    let mut record = [0u8; 64];
    let mut s = State::new();
    for _ in 0..MAX_RECORDS {
        if io::read_full(STDIN_FILENO, &mut record) != record.len() {
            break;
        }
        s.replay(&record);
    }
    s
}

fn main() {
    let s = replay_all();
    print_count(b"vectors: ", s.vectors);
    print_count(b"arithmetic: ", s.arithmetic);
    print_count(b"history: ", s.history);
}
