// Replays stored cases through the feed's reader and writer and the modifiers, and says how many differ. Standard input
// is records of 32 words of 32 bits, the low byte first. compare/vectors/feed.rs makes them with the decoder of the
// comparison with egui and with egui's own modifiers.rs, and says what stands where.
#![tactic(auto)]

mod cases;
mod fields;
mod record;

use cases::Tally;

const STDIN_FILENO: i32 = 0;

const STDOUT_FILENO: i32 = 1;

// so that the loop ends
const MAX_RECORDS: u64 = 1_000_000;

fn replay_all() -> Tally {
    let mut record = [0u8; 128];
    let mut t = Tally::default();
    for _ in 0..MAX_RECORDS {
        if io::read_full(STDIN_FILENO, &mut record) != record.len() {
            break;
        }
        t = cases::replay(t, &record);
    }
    t
}

fn main() {
    let t = replay_all();
    io::print_decimal(STDOUT_FILENO, t.cases);
    io::write_all(STDOUT_FILENO, b" cases, ");
    io::print_decimal(STDOUT_FILENO, t.differ);
    io::write_all(STDOUT_FILENO, b" differ\n");
}
