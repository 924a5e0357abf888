// Bytes for standard output, gathered till the buffer is full.
ghost use Rattle.std.specs.Prelude.{◌≡◌, ◌≤◌};

use std::fmt;

const STDOUT_FILENO: i32 = 1;

const SIZE: usize = 65536;

// The first `len` bytes wait to be written.
#[derive(Clone, Copy)]
pub struct Output {
    bytes: [u8; SIZE],
    len: usize,
    ghost fits: { len ≤ 65536 },
}

impl Output {
    // Kept (plain): bytes here, words in an answer: the two have a length of 0 in common.
    pub fn new() -> Output
        ensures { result.len ≡ 0 }
    {
        Output {
            bytes: [0; SIZE],
            len: 0,
        }
    }

    pub fn flush(&mut self) {
        io::write_all(STDOUT_FILENO, &self.bytes[..self.len]);
        self.len = 0;
    }

    fn byte(&mut self, b: u8) {
        if self.len < SIZE {
            self.bytes[self.len] = b;
            self.len += 1;
            return;
        }
        self.flush();
        self.bytes[0] = b;
        self.len = 1;
    }

    pub fn bytes(&mut self, text: &[u8]) {
        for b in text {
            self.byte(*b);
        }
    }

    // Low byte first.
    pub fn word(&mut self, w: u32) {
        self.bytes(&w.to_le_bytes());
    }
}

// It takes every text.
impl fmt::Write for Output {
    fn write_str(&mut self, s: &str) -> fmt::Result {
        self.bytes(s.as_bytes());
        Ok(())
    }
}
