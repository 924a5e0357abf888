// One call.
use crate::answer::{FEED_PLACES, answered};
use crate::records::{Bytes, MAX_BYTES, byte_count, is_well_formed, places, unpack};
use kernel_read::read_records;
use kernel_touch::answer::{KernelRefusal, Taken};
use kernel_touch::slots::KernelTouches;
use trace_machine::machine::{Machine, Step, refused, with_kernel};
use trace_words::request::id;
use trace_words::words::Answer;

// As many bytes and places as the request says.
fn read_in(
    k: &mut KernelTouches,
    w: &[u32],
    bytes: &Bytes,
    feed: &mut [u32],
) -> Result<Taken, KernelRefusal> {
    let n = byte_count(w);
    let room = places(w, feed.len());
    let all: &[u8] = bytes;
    read_records(k, id(w, 0, 1), &all[..n], &mut feed[..room])
}

// KERNEL. Refused, the machine is as before.
pub fn kernel(m: Machine, a: &mut Answer, w: &[u32]) -> Step {
    if !is_well_formed(w) {
        return refused(m);
    }
    let mut bytes = [0u8; MAX_BYTES];
    let mut feed = [0u32; FEED_PLACES];
    unpack(&mut bytes, w);
    let mut slots = m.kernel;
    let answer = read_in(&mut slots, w, &bytes, &mut feed);
    with_kernel(m, slots, answered(a, &feed, answer))
}
