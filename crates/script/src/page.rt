// Lines into a page that is written out whenever it is nearly full. A section is a letter and numbers, which in
// full mode are written on a line of their own, and in digest mode go into one number.
ghost use Rattle.std.specs.Prelude.{◌+◌, ◌<◌, ◌≤◌};

use std::io::{Print, Result, Stdout};

// The bytes of a page.
const SIZE: usize = 65536;

// What is to be written, where it goes, and what the writes came to: after one that failed nothing more is written, and the
// last flush tells it. The first `used` bytes are not written out yet; `digest` is that of the section so far.
#[derive(Drop)]
pub struct Page {
    bytes: [u8; SIZE],
    used: usize,
    to: Stdout,
    wrote: Result<()>,
    full: bool,
    digest: u32,
    ghost inside: { used ≤ 65536 },
}

impl Page {
    // An empty page, in digest mode.
    pub fn new(to: Stdout) -> Page {
        Page {
            bytes: [0; SIZE],
            used: 0,
            to,
            wrote: Ok(()),
            full: false,
            digest: 0,
        }
    }

    // From here on the page is in full mode, or in digest mode.
    pub fn set_full(&mut self, full: bool) {
        self.full = full;
    }

    // Writes out what stands.
    fn write_out(&mut self)
        ensures { self.new.used ≤ 0 }
    {
        if self.wrote.is_ok() {
            self.wrote = self.to.write_all(&self.bytes[..self.used]);
        }
        self.used = 0;
    }

    // Writes out what stands, and tells what all the writes came to.
    pub fn flush(&mut self) -> Result<()> {
        self.write_out();
        self.wrote
    }

    // Room for 64 bytes: what stands is written out where there is less.
    fn make_room(&mut self)
        ensures { self.new.used + 64 ≤ 65536 }
    {
        if SIZE - 64 < self.used {
            self.write_out();
        }
    }

    // A byte.
    fn byte(&mut self, b: u8) {
        self.make_room();
        self.used = text::put_byte(&mut self.bytes, self.used, b);
    }

    // A number.
    pub fn first(&mut self, z: i64) {
        self.make_room();
        self.used = text::put_number(&mut self.bytes, self.used, z);
    }

    // A space and a number.
    pub fn item(&mut self, z: i64) {
        self.byte(b' ');
        self.first(z);
    }

    // The same of each of these numbers.
    pub fn items(&mut self, numbers: &[i64]) {
        for z in numbers {
            self.item(*z);
        }
    }

    // The end of what a call prints.
    pub fn end_line(&mut self) {
        self.byte(b'\n');
    }

    // One half of a number goes into the digest.
    fn mix(&mut self, half: u32) {
        self.digest = (self.digest ^ half).wrapping_mul(16777619);
    }

    // A section begins.
    pub fn begin(&mut self, letter: u8) {
        self.digest = 2166136261;
        self.byte(if self.full { b'\n' } else { b' ' });
        self.byte(letter);
    }

    // A number of the section. Into the digest goes the number with 2^62 added.
    pub fn number(&mut self, z: i64) {
        if self.full {
            self.item(z);
        } else {
            let lifted = z.cast_unsigned().wrapping_add(4611686018427387904);
            self.mix((lifted % 4294967296) as u32);
            self.mix((lifted / 4294967296) as u32);
        }
    }

    // The same of each of these numbers.
    pub fn numbers(&mut self, numbers: &[i64]) {
        for z in numbers {
            self.number(*z);
        }
    }

    // The section ends.
    pub fn end(&mut self) {
        if !self.full {
            self.item(i64::from(self.digest));
        }
    }
}
