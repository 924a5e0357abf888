// The words of a record.
ghost use Rattle.std.specs.Prelude.{◌<◌};

pub fn word(b: &[u8; 128], i: usize) -> u32
    requires { i < 32 }
{
    let j = i * 4;
    u32::from_le_bytes([b[j], b[j + 1], b[j + 2], b[j + 3]])
}

// The feed of an event's record.
pub fn feed_words(b: &[u8; 128]) -> [u32; 12] {
    let mut words = [0u32; 12];
    for i in 0..12 {
        words[i] = word(b, 16 + i);
    }
    words
}
