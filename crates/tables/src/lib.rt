// Reservation tables: what is set ahead for a target, sixteen of each kind. A table is an array and a count; the
// places from the count on are not read, and one that falls vacant is zeroed. A target is told apart by its key, both
// bends being one (`cycles::key_of`).
#![tactic(auto)]

ghost use Rattle.std.specs.Prelude.{◌≡◌, Bool, true, [], ◌∷◌, ◌++◌, take, ℕ, ◌+◌, ◌≤◌, ◌<◌, length};
ghost use Rattle.laws.specs.Lists.{all, put_first};
ghost use Rattle.laws.specs.Keys.{distinct};
ghost use Rattle.numbers.specs.Limits.{places, list_limit};
ghost use Rattle.counted.specs.Numbers.{shown};
ghost use Rattle.counted.specs.Curves.{triples};
ghost use Rattle.cycles.specs.Rules.{no_cycle, ok_cycle};
ghost use Rattle.tables.specs.Reservations.{forward, ok_values, ok_wave, ok_sine};
ghost use Rattle.tables.specs.Sixteen.{left, ok_sixteen, keys_of};
ghost use Rattle.tables.specs.Tables.{no_note, no_wave, no_sine, note_key, wave_key, sine_key, cycle_key, new_sine, ok_notes, notes_without, notes_with, ok_waves, waves_without, waves_with, ok_sines, sines_without, sines_with, ok_cycles, cycles_without, cycles_with, keys_shown, key_limit, lone};
ghost use Rattle.tables.specs.Stored.{ok_stored};

use counted::Numbers;
use cycles::{Cycle, PLACES, key_of};
use numbers::Refusal;

// How many reservations there may be in all.
const KEYS: usize = PLACES * 4;

// What a wave does with its lengths at a note: numbers, since C lends a wave's record.
pub const NORMAL: u32 = 0;

pub const EXPAND: u32 = 1;

pub const REPEAT: u32 = 2;

// The values of a target's notes, one after the other; `index` is the next. `cycling` is 0 or 1.
#[repr(C)]
#[derive(Clone, Copy)]
pub struct OnNoteValues {
    pub target: i32,
    pub index: usize,
    pub cycling: u32,
    pub values: Numbers,
}

// A curve for each note of a target.
#[repr(C)]
#[derive(Clone, Copy)]
pub struct OnNoteWave {
    pub target: i32,
    pub mode: u32,
    pub values: Numbers,
}

// A sine for each note of a target. `shape` is 0 for a full turn, 1 and 2 for the quarter up and down.
#[repr(C)]
#[derive(Clone, Copy)]
pub struct OnNoteSine {
    pub target: i32,
    pub shape: u32,
    pub low: i32,
    pub high: i32,
    pub length: i32,
    pub times: i32,
}

// What `OnNoteSine::new` answers: 0 and the sine, or the refusal's number and a sine of zeros.
#[repr(C)]
#[derive(Clone, Copy)]
pub struct SineAnswer {
    pub code: u32, // a number beside what it goes with: C reads this record
    pub sine: OnNoteSine,
}

// Whether a list for notes may be stored: its position is 0 to its count.
pub fn note_ok(e: OnNoteValues) -> bool
    ensures { result ≡ ok_values e }
{
    let placed = e.index <= e.values.count;
    let marked = e.cycling <= 1;
    numbers::is_target(e.target) & placed & marked & counted::numbers_ok(e.values)
}

// Whether no length of a curve's triples is below 0.
fn lengths_ok(list: Numbers) -> bool
    requires { list.count ≤ list_limit }
    ensures { result ≡ all forward (triples (shown list)) }
{
    for i in 0..list.count / 3 {
        if list.items[i * 3 + 2] < 0 {
            return false;
        }
    }
    true
}

// Whether a wave may be stored: a curve, and with `EXPAND` no length below 0.
pub fn wave_ok(e: OnNoteWave) -> bool
    ensures { result ≡ ok_wave e }
{
    if !counted::curve_ok(e.values) {
        return false;
    }
    let known = e.mode <= REPEAT;
    let plain = e.mode != EXPAND;
    numbers::is_target(e.target) & known & (plain | lengths_ok(e.values))
}

// Whether a sine may be stored.
pub fn sine_ok(e: OnNoteSine) -> bool
    ensures { result ≡ ok_sine e }
{
    let known = e.shape <= 2;
    numbers::is_target(e.target)
        & known
        & numbers::is_sine_end(e.low)
        & numbers::is_sine_end(e.high)
        & numbers::is_length(e.length)
        & numbers::is_length(e.times)
}

// What may stand in a table: it says what an unused place holds, what tells a record apart, and whether one may be stored. Records and
// tables go by value to what tests them: of a reference the compiled code copies the whole table, and of a track all its tables.
pub trait Reservation: Copy {
    ghost blank: { Self };

    ghost key: { Self → ℕ };

    ghost ok: { Self → Bool };

    fn blank() -> Self
        ensures { result ≡ blank };

    fn key(self) -> usize
        ensures { result ≡ key self };

    fn is_ok(self) -> bool
        ensures { result ≡ ok self };
}

impl Reservation for OnNoteValues {
    ghost blank = { no_note };

    ghost key = { note_key };

    ghost ok = { ok_values };

    fn blank() -> OnNoteValues {
        OnNoteValues {
            target: 0,
            index: 0,
            cycling: 0,
            values: counted::empty(),
        }
    }

    fn key(self) -> usize {
        key_of(self.target)
    }

    fn is_ok(self) -> bool {
        note_ok(self)
    }
}

impl Reservation for OnNoteWave {
    ghost blank = { no_wave };

    ghost key = { wave_key };

    ghost ok = { ok_wave };

    fn blank() -> OnNoteWave {
        OnNoteWave {
            target: 0,
            mode: 0,
            values: counted::empty(),
        }
    }

    fn key(self) -> usize {
        key_of(self.target)
    }

    fn is_ok(self) -> bool {
        wave_ok(self)
    }
}

impl Reservation for OnNoteSine {
    ghost blank = { no_sine };

    ghost key = { sine_key };

    ghost ok = { ok_sine };

    fn blank() -> OnNoteSine {
        OnNoteSine {
            target: 0,
            shape: 0,
            low: 0,
            high: 0,
            length: 0,
            times: 0,
        }
    }

    fn key(self) -> usize {
        key_of(self.target)
    }

    fn is_ok(self) -> bool {
        sine_ok(self)
    }
}

impl Reservation for Cycle {
    ghost blank = { no_cycle };

    ghost key = { cycle_key };

    ghost ok = { ok_cycle };

    fn blank() -> Cycle {
        Cycle::none()
    }

    fn key(self) -> usize {
        key_of(self.target)
    }

    fn is_ok(self) -> bool {
        cycles::cycle_ok(self)
    }
}

impl OnNoteSine {
    // A sine for a target's notes. Refuses 2, 4, and then hands back a sine of zeros.
    pub fn new(target: i32, shape: u32, low: i32, high: i32, length: i32, times: i32) -> SineAnswer
        ensures { result ≡ new_sine target shape low high length times }
    {
        let none = OnNoteSine::blank();
        if !numbers::is_target(target) {
            return SineAnswer {
                code: Refusal::NoTarget.number(),
                sine: none,
            };
        }
        let sine = OnNoteSine {
            target,
            shape,
            low,
            high,
            length,
            times,
        };
        if !sine_ok(sine) {
            return SineAnswer {
                code: Refusal::OutOfRange.number(),
                sine: none,
            };
        }
        SineAnswer { code: 0, sine }
    }
}

// The four tables are records of their own, since no exported function of C may name a generic one; what is done to them is done
// by the functions below, over whatever stands in them.

// A table of lists for notes.
#[repr(C)]
#[derive(Clone, Copy)]
pub struct NoteTable {
    pub count: usize,
    pub items: [OnNoteValues; PLACES], // an array with its count: C lends it within a track, and nothing here takes memory
}

// A table of waves for notes.
#[repr(C)]
#[derive(Clone, Copy)]
pub struct WaveTable {
    pub count: usize,
    pub items: [OnNoteWave; PLACES], // an array with its count: C lends it within a track, and nothing here takes memory
}

// A table of sines for notes.
#[repr(C)]
#[derive(Clone, Copy)]
pub struct SineTable {
    pub count: usize,
    pub items: [OnNoteSine; PLACES], // an array with its count: C lends it within a track, and nothing here takes memory
}

// A table of cycles.
#[repr(C)]
#[derive(Clone, Copy)]
pub struct CycleTable {
    pub count: usize,
    pub items: [Cycle; PLACES], // an array with its count: C lends it within a track, and nothing here takes memory
}

// Whether at most sixteen count, each of which may be stored.
fn are_ok<T: Reservation>(count: usize, items: [T; PLACES]) -> bool
    ensures value { result ≡ ok_sixteen T.ok count items }
    ensures few { result ≡ true → count ≤ places }
{
    if PLACES < count {
        return false;
    }
    for i in 0..count {
        if !items[i].is_ok() {
            return false;
        }
    }
    true
}

// Takes the target of key `k` out, and answers how many are left: they keep their order and close up, the places behind them are zeroed.
fn take_out<T: Reservation>(count: usize, items: &mut [T; PLACES], k: usize) -> usize
    requires { count ≤ places }
    ensures left { result ≡ length (left T.key count items.old k) }
    ensures items { items.new ≡ put_first T.blank count (left T.key count items.old k) items.old }
{
    let mut n: usize = 0;
    for i in 0..count {
        let e = items[i];
        if e.key() == k {
            continue;
        }
        items[n] = e;
        n += 1;
    }
    for j in n..count {
        items[j] = T::blank();
    }
    n
}

// Puts one more behind the `count` that are there, where there is room, and answers how many there are.
fn put_in<T: Reservation>(count: usize, items: &mut [T; PLACES], e: T) -> usize
    requires { count < places }
    ensures more { result ≡ count + 1 }
    ensures items { items.new ≡ put_first T.blank count (take count items.old ++ (e ∷ [])) items.old }
{
    items[count] = e;
    count + 1
}

impl NoteTable {
    // Whether at most sixteen count, each of which may be stored.
    pub fn is_ok(self) -> bool
        ensures value { result ≡ ok_notes self }
        ensures few { result ≡ true → self.count ≤ places }
    {
        are_ok(self.count, self.items)
    }

    // The table without the target of key `k`.
    pub fn without(mut self, k: usize) -> NoteTable
        requires { self.count ≤ places }
        ensures { result ≡ notes_without self k }
    {
        self.count = take_out(self.count, &mut self.items, k);
        self
    }

    // The table with one more at its end, where there is room.
    pub fn with(mut self, e: OnNoteValues) -> NoteTable
        requires { self.count < places }
        ensures { result ≡ notes_with self e }
    {
        self.count = put_in(self.count, &mut self.items, e);
        self
    }
}

impl WaveTable {
    // Whether at most sixteen count, each of which may be stored.
    pub fn is_ok(self) -> bool
        ensures value { result ≡ ok_waves self }
        ensures few { result ≡ true → self.count ≤ places }
    {
        are_ok(self.count, self.items)
    }

    // The table without the target of key `k`.
    pub fn without(mut self, k: usize) -> WaveTable
        requires { self.count ≤ places }
        ensures { result ≡ waves_without self k }
    {
        self.count = take_out(self.count, &mut self.items, k);
        self
    }

    // The table with one more at its end, where there is room.
    pub fn with(mut self, e: OnNoteWave) -> WaveTable
        requires { self.count < places }
        ensures { result ≡ waves_with self e }
    {
        self.count = put_in(self.count, &mut self.items, e);
        self
    }
}

impl SineTable {
    // Whether at most sixteen count, each of which may be stored.
    pub fn is_ok(self) -> bool
        ensures value { result ≡ ok_sines self }
        ensures few { result ≡ true → self.count ≤ places }
    {
        are_ok(self.count, self.items)
    }

    // The table without the target of key `k`.
    pub fn without(mut self, k: usize) -> SineTable
        requires { self.count ≤ places }
        ensures { result ≡ sines_without self k }
    {
        self.count = take_out(self.count, &mut self.items, k);
        self
    }

    // The table with one more at its end, where there is room.
    pub fn with(mut self, e: OnNoteSine) -> SineTable
        requires { self.count < places }
        ensures { result ≡ sines_with self e }
    {
        self.count = put_in(self.count, &mut self.items, e);
        self
    }
}

impl CycleTable {
    // Whether at most sixteen count, each of which may be stored.
    pub fn is_ok(self) -> bool
        ensures value { result ≡ ok_cycles self }
        ensures few { result ≡ true → self.count ≤ places }
    {
        are_ok(self.count, self.items)
    }

    // The table without the target of key `k`.
    pub fn without(mut self, k: usize) -> CycleTable
        requires { self.count ≤ places }
        ensures { result ≡ cycles_without self k }
    {
        self.count = take_out(self.count, &mut self.items, k);
        self
    }

    // The table with one more at its end, where there is room.
    pub fn with(mut self, e: Cycle) -> CycleTable
        requires { self.count < places }
        ensures { result ≡ cycles_with self e }
    {
        self.count = put_in(self.count, &mut self.items, e);
        self
    }
}

// The keys of the targets that have a reservation, as they are gathered.
#[derive(Clone, Copy)]
pub struct Keys {
    pub count: usize,
    pub items: [usize; KEYS], // an array with its count: nothing here takes memory
}

impl Keys {
    // None yet.
    fn none() -> Keys
        ensures count { result.count ≡ 0 }
        ensures shown { keys_shown result ≡ [] }
    {
        Keys {
            count: 0,
            items: [0; KEYS],
        }
    }

    // Those of a table behind what is gathered.
    fn gather<T: Reservation>(&mut self, count: usize, items: [T; PLACES])
        requires few { count ≤ places }
        requires room { self.old.count + count ≤ key_limit }
        ensures count { self.new.count ≡ self.old.count + count }
        ensures shown { keys_shown self.new ≡ keys_shown self.old ++ keys_of T.key count items }
    {
        let first = self.count;
        for i in 0..count {
            self.items[first + i] = items[i].key();
        }
        self.count = first + count;
    }

    // Whether each stands once.
    fn alone(&self) -> bool
        requires { self.now.count ≤ key_limit }
        ensures { result ≡ distinct (keys_shown self.now) }
    {
        let n = self.count;
        for i in 0..n {
            if self.items[i + 1..n].contains(&self.items[i]) {
                return false;
            }
        }
        true
    }
}

// Whether no target has two reservations, over all four tables.
#[tactic(auto, unfolding(crate::specs::Tables::lone))]
pub fn lone_ok(notes: NoteTable, waves: WaveTable, sines: SineTable, cycles: CycleTable) -> bool
    requires { (notes.count ≤ places) × (waves.count ≤ places) × (sines.count ≤ places) × (cycles.count ≤ places) }
    ensures { result ≡ lone notes waves sines cycles }
{
    let mut keys = Keys::none();
    keys.gather(notes.count, notes.items);
    keys.gather(waves.count, waves.items);
    keys.gather(sines.count, sines.items);
    keys.gather(cycles.count, cycles.items);
    keys.alone()
}

// Whether the tables that a track holds may be stored, and no target has two reservations in them.
#[tactic(auto, unfolding(crate::specs::Stored::ok_stored))]
pub fn stored_ok(notes: NoteTable, waves: WaveTable, sines: SineTable) -> bool
    ensures { result ≡ ok_stored notes waves sines }
{
    if !(notes.is_ok() && waves.is_ok() && sines.is_ok()) {
        return false;
    }
    let mut keys = Keys::none();
    keys.gather(notes.count, notes.items); // the lists' keys first
    keys.gather(waves.count, waves.items);
    keys.gather(sines.count, sines.items);
    keys.alone()
}
