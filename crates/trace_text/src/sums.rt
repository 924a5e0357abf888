// FNV-1a, 64 bits, of an answer's words as little-endian bytes, the first word included.
use trace_words::reply::Reply;

const START: u64 = 0xcbf2_9ce4_8422_2325;

const PRIME: u64 = 0x100_0000_01b3;

fn word(h: u64, w: u32) -> u64 {
    let mut sum = h;
    for b in w.to_le_bytes() {
        sum = (sum ^ u64::from(b)).wrapping_mul(PRIME);
    }
    sum
}

// The first word of an answer.
pub fn head(r: Reply) -> u32 {
    r.code % 256 * 0x100_0000 + (r.words % 0x100_0000) as u32
}

pub fn sum(a: &[u32], r: Reply) -> u64 {
    let mut h = word(START, head(r));
    for w in a {
        h = word(h, *w);
    }
    h
}
