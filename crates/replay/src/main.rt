// Replays a trace on standard input, up to 1 MiB in the words of compare/FORMAT.md, and answers on standard output:
//   replay [text]    one line a call
//   replay sums      one checksum a call
//   replay whole     the answers' words
#![tactic(auto)]

use std::env::FillError;
use std::rt::Env;
use trace::run::{Form, replay};

const STDERR_FILENO: i32 = 2;

// 1 MiB, in words.
const LIMIT: usize = 262144;

fn say_usage() {
    io::write_all(STDERR_FILENO, b"usage: replay [text|sums|whole] < trace\n");
}

// Kept (plain): the words of a command line: an enum between them and `Form` would be matched here alone.
fn replay_as(arg: &[u8]) {
    match arg {
        b"whole" => replay(Form::Whole, LIMIT),
        b"sums" => replay(Form::Sums, LIMIT),
        b"text" => replay(Form::Text, LIMIT),
        _ => say_usage(),
    }
}

fn main(rt: HostRuntime) {
    let mut arg = [0u8; 8];
    match rt.arg(1, &mut arg) {
        Ok(n) => replay_as(&arg[..n]),
        Err(FillError::NotPresent) => replay(Form::Text, LIMIT),
        Err(FillError::TooLong) => say_usage(),
    }
}
