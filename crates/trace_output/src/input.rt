// The words of standard input, a record at a time.
ghost use Rattle.std.specs.Prelude.{◌≡◌, ◌≤◌, IfSome, length};

const STDIN_FILENO: i32 = 0;

// A record has fewer than 1 MiB.
pub const WORDS: usize = 262144;

pub type Record = [u32; WORDS];

const WORD_BYTES: usize = 4;

// Words that are read at once.
const CHUNK: usize = 1024;

const CHUNK_BYTES: usize = WORD_BYTES * CHUNK;

// The words of the bytes, low byte first.
fn unpack(words: &mut [u32], bytes: &[u8]) {
    let (fours, _) = bytes.as_chunks::<WORD_BYTES>();
    for (word, four) in words.iter_mut().zip(fours) {
        *word = u32::from_le_bytes(*four);
    }
}

// How many times a record is read from, at most: one more than it has chunks.
const READS: usize = 257;

// The next `len` words, if they could be read. After a read that ends early, with a word at least, it is read on.
pub fn read(request: &mut Record, len: usize) -> Option<&[u32]>
    ensures { IfSome result (λ words. (length words.now ≡ len) × (len ≤ 262144)) }
{
    let words = request.get_mut(..len)?;
    let mut bytes = [0u8; CHUNK_BYTES];
    let mut n: usize = 0;
    for _ in 0..READS {
        if len <= n {
            break;
        }
        let wanted = CHUNK_BYTES.min((len - n) * WORD_BYTES);
        let got = io::read_full(STDIN_FILENO, &mut bytes[..wanted]) / WORD_BYTES;
        if got == 0 {
            return None;
        }
        unpack(&mut words[n..], &bytes[..got * WORD_BYTES]);
        n += got;
    }
    if n < len {
        return None;
    }
    Some(words)
}
