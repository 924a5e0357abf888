// The bytes of the records in a request.
ghost use Rattle.std.specs.Prelude.{◌≤◌};

use trace_words::request::at;

// Device, places, number of bytes.
const HEAD_WORDS: usize = 4;

const WORD_BYTES: usize = 4;

// 4,096 records.
pub const MAX_BYTES: usize = 98304;

pub type Bytes = [u8; MAX_BYTES];

// As many words as the bytes take, and no more bytes than there is room for.
pub fn is_well_formed(w: &[u32]) -> bool {
    let n = at(w, 3) as usize;
    n <= MAX_BYTES && w.len() == HEAD_WORDS + n.div_ceil(WORD_BYTES)
}

// How many bytes the request has.
pub fn byte_count(w: &[u32]) -> usize
    ensures { result ≤ 98304 }
{
    (at(w, 3) as usize).min(MAX_BYTES)
}

// How many places of the feed buffer the request asks for, of those that are lent.
pub fn places(w: &[u32], lent: usize) -> usize
    ensures { result ≤ lent }
{
    lent.min(at(w, 2) as usize)
}

// The bytes of the words after the head, the low byte of each first.
pub fn unpack(bytes: &mut Bytes, w: &[u32]) {
    let (fours, _) = bytes.as_chunks_mut::<WORD_BYTES>();
    for (four, word) in fours.iter_mut().zip(w.iter().skip(HEAD_WORDS)) {
        *four = word.to_le_bytes();
    }
}
