// The desk on which the calls of a script are carried out: what each call finds as the one before left it. Beside it stand
// the numbers that calls are lent, which a new desk keeps: the records of the event list, those of call 306, and the store. How
// a call is handed a list of its own stands in `lists`.
#![tactic(auto)]

ghost use Rattle.std.specs.Prelude.{◌≤◌};

pub mod lists;

use budget::Budget;
use cycles::{Cycle, PLACES};
use eventlist::WIDTH;
use params::NoteParam;
use script::answer::{Answer, Answers, accepted, done};
use state::{Track, TrackAnswer, no_cycles};

// The most records that a list has: room for the 10,000 writes of one cycle call, and some more.
pub const MOST_RECORDS: usize = 10240;

// The numbers of so many records, and seven more.
pub const MOST_NUMBERS: usize = 81927;

// The bytes of the store.
const STORE: usize = 256;

// `named` is the parameter that a call of family 4 named. `room` records are lent and `count` are in use. `extra` and
// `odd` say how the list is lent wrongly: a count of room + extra, and so many numbers more than whole records. `split`
// records stand in the second list.
#[derive(Clone, Copy)]
pub struct Desk {
    pub track: Track,
    pub cycles: [Cycle; PLACES],
    pub named: usize,
    pub budget: Budget,
    pub room: usize,
    pub count: usize,
    pub extra: usize,
    pub odd: usize,
    pub split: usize,
}

impl Desk {
    // A desk with a new track, no cycles, and an empty list of `room` records.
    pub fn new(timebase: i32, channel: i32, room: usize) -> Desk {
        // by way of a variable: the borrow checker takes no array of a call's result straight into a field
        let cycles = no_cycles().items;
        Desk {
            track: Track::new(timebase, channel).track,
            cycles,
            named: 0,
            budget: Budget::new(1, 80000).budget,
            room,
            count: 0,
            extra: 0,
            odd: 0,
            split: 0,
        }
    }

    // The count that is handed in.
    pub fn handed(&self) -> usize {
        if self.extra != 0 && self.room <= MOST_RECORDS && self.extra <= MOST_RECORDS {
            self.room + self.extra
        } else {
            self.count
        }
    }

    // How many numbers of the event list are lent.
    pub fn lent(&self) -> usize
        ensures { result ≤ 81927 }
    {
        numbers_in(self.room, self.odd)
    }

    // How many numbers of the second list are lent.
    pub fn lent_second(&self) -> usize
        ensures { result ≤ 81927 }
    {
        numbers_in(self.room, 0)
    }

    // A call on the track, which hands one back, refused or not.
    pub fn keep(&mut self, r: TrackAnswer) -> Answer {
        self.track = r.track;
        done(r.code)
    }

    // A call that writes into the list, which hands a budget back, refused or not.
    pub fn wrote(&mut self, code: u32, count: usize, budget: Budget) -> Answer {
        self.budget = budget;
        accepted(code)?;
        self.count = count;
        Ok(Answers::None)
    }

    // 801: the new track in its place, where it is one, and the cycle table empty.
    pub fn begin_track(&mut self, timebase: i32, channel: i32) -> Answer {
        let made = Track::new(timebase, channel);
        accepted(made.code)?;
        self.track = made.track;
        // by way of a variable, as above
        let none = no_cycles().items;
        self.cycles = none;
        Ok(Answers::None)
    }

    // Parameter p of the track, to be written, where there is one.
    pub fn param_mut(&mut self, p: usize) -> Option<&mut NoteParam> {
        match p {
            0 => Some(&mut self.track.v),
            1 => Some(&mut self.track.q),
            2 => Some(&mut self.track.t),
            3 => Some(&mut self.track.o),
            4 => Some(&mut self.track.l),
            _ => None,
        }
    }
}

// How many numbers `room` records and `odd` numbers more are.
fn numbers_in(room: usize, odd: usize) -> usize
    ensures { result ≤ 81927 }
{
    if room <= MOST_RECORDS && odd < WIDTH {
        room * WIDTH + odd
    } else {
        0
    }
}

// Parameter p of a track; the last for any number that names none.
pub fn param_of(track: &Track, p: usize) -> &NoteParam {
    match p {
        0 => &track.v,
        1 => &track.q,
        2 => &track.t,
        3 => &track.o,
        _ => &track.l,
    }
}

// The event list, the second list, and the store, whose byte i is (i * 7 + 3) mod 256.
#[derive(Drop)]
pub struct Buffers {
    pub events: [i64; MOST_NUMBERS],
    pub second: [i64; MOST_NUMBERS],
    pub store: [u8; STORE],
}

impl Buffers {
    pub fn new() -> Buffers {
        let mut store: [u8; STORE] = [0; STORE];
        let mut next: u8 = 3;
        for byte in store.iter_mut() {
            *byte = next;
            next = next.wrapping_add(7);
        }
        Buffers {
            events: [0; MOST_NUMBERS],
            second: [0; MOST_NUMBERS],
            store,
        }
    }
}
