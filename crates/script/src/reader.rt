// The script, word by word. The bytes are read from standard input a buffer at a time; a buffer holds whole words,
// so that a word never stands across two of them.
ghost use Rattle.std.specs.Prelude.{◌≤◌};

use crate::args::as_u32;
use std::io::Stdin;
use text::word_at;

// The bytes of a buffer.
const SIZE: usize = 65536;

// The most arguments of a call.
pub const MOST_WORDS: usize = 4096;

// The bytes from `at` to `end` of the buffer are still to be read.
#[derive(Drop)]
pub struct Reader {
    from: Stdin,
    bytes: [u8; SIZE],
    at: usize,
    end: usize,
    ghost inside: { end ≤ 65536 },
    ghost ordered: { at ≤ end },
}

// A call's number, and the count of its arguments.
#[derive(Clone, Copy)]
pub struct Head {
    pub op: i64,
    pub count: usize,
    ghost few: { count ≤ 4096 },
}

impl Reader {
    // Where a script begins.
    pub fn new(from: Stdin) -> Reader {
        Reader {
            from,
            bytes: [0; SIZE],
            at: 0,
            end: 0,
        }
    }

    // Reads a buffer where nothing of the last one is left.
    fn fill(&mut self) {
        if self.at == self.end {
            self.at = 0;
            self.end = 0;
            self.end = streams::read_full(&mut self.from, &mut self.bytes);
        }
    }

    // The next word of the script; none where the script is over.
    fn word(&mut self) -> Option<i64> {
        self.fill();
        if self.end - self.at < 8 {
            return None;
        }
        let word = word_at(&self.bytes, self.at);
        self.at += 8;
        Some(word)
    }

    // A call's head; its arguments go to the front of `words`. A count outside 0 to 4096 ends the script.
    pub fn call(&mut self, words: &mut [i64; MOST_WORDS]) -> Option<Head> {
        let op = self.word()?;
        let count = usize::try_from(self.word()?).ok()?;
        if MOST_WORDS < count {
            return None;
        }
        for word in words[..count].iter_mut() {
            *word = self.word()?;
        }
        Some(Head { op, count })
    }
}

// The hundreds of a call's number.
pub fn family_of(op: i64) -> u32 {
    as_u32(op) / 100
}
