// What is set ahead for a target's notes and times: a list for notes, a wave or a sine for each note, a cycle. A target has
// one reservation over all four kinds, so that every setter first takes its old ones out and then puts one at the end. A call
// is handed the track, the sixteen cycle records by value and how many were lent; refused, it hands back what it was given.
#![tactic(auto)]

ghost use Rattle.std.specs.Prelude.{◌≡◌, Bool, true};
ghost use Rattle.numbers.specs.Refusals.{told};
ghost use Rattle.cycles.specs.Turns.{option_of};
ghost use Rattle.state.specs.Track.{with_tables};
ghost use Rattle.state.specs.Tests.{ok_lent};
ghost use Rattle.reserving.specs.declared.Kept.{Kept};
ghost use Rattle.reserving.specs.Clearing.{answer, refusal, cleared, reserving, freed, placed};
ghost use Rattle.reserving.specs.Setting.{note_room, wave_room, sine_room, cycle_room, with_note, with_wave, with_sine, with_cycle, remove_reserve, set_on_note, set_on_note_wave, set_on_note_sine, set_on_cycle};
ghost use Rattle.reserving.specs.Old.{remove_cc_on, set_cc_on_note, set_cc_on_note_wave, set_pb_on_note_wave, remove_pb_on_note_wave, remove_cc_on_note, remove_cc_on_note_wave};

use counted::{empty, numbers_of, numbers_ok};
use cycles::{Cycle, PLACES, key_of};
use drawing::{ask_track, cc_target, pb_target};
use numbers::{Refusal, ask, is_length, is_target};
use state::{OPTIONS, Track, TrackAnswer, cycles_of, lent_alone, track_ok};
use tables::{
    CycleTable, NORMAL, NoteTable, OnNoteSine, OnNoteValues, OnNoteWave, SineTable, WaveTable,
    note_ok, sine_ok, wave_ok,
};
use values::WriteOption;

// The track and the cycle table as a call leaves them.
#[repr(C)]
#[derive(Clone, Copy)]
pub struct Kept {
    pub code: u32, // a number beside what it goes with: C reads this record
    pub track: Track,
    pub cycles: [Cycle; PLACES],
}

// The functions behind the setters change one answer in place: each that was built anew would be a track more on the stack.

// What a call asks, as far as it can be told before the old reservations are out: 1, 2, 3, 4 in this order.
fn asked(
    track: &Track,
    size: usize,
    cycles: &[Cycle; PLACES],
    target: i32,
    short: bool,
    ok: bool,
) -> Result<(), Refusal>
    ensures { told result ≡ refusal track.now size cycles.now target short ok true }
{
    ask(size == PLACES, Refusal::NotAList)?;
    ask(is_target(target), Refusal::NoTarget)?;
    ask(short, Refusal::TooMany)?;
    ask(track_ok(*track) & ok, Refusal::OutOfRange)?;
    let own = cycles_of(*track, *cycles);
    ask(
        lent_alone(track.notes, track.waves, track.sines, own),
        Refusal::OutOfRange,
    )
}

// An answer with these tables for the track's own. The tables are made first, each of its own part, so that the track is copied once.
#[inline(always)]
fn with_tables(
    left: &mut Kept,
    notes: NoteTable,
    waves: WaveTable,
    sines: SineTable,
    own: CycleTable,
)
    requires { left.old.code ≡ 0 }
    ensures { left.new ≡ answer 0 (with_tables left.old.track notes waves sines own.count) own.items }
{
    left.track.notes = notes;
    left.track.waves = waves;
    left.track.sines = sines;
    left.track.cycles = own.count;
    // An array goes from one struct to another by a variable: the check covers no other way.
    let items = own.items;
    left.cycles = items;
}

// The track and the table without the target of key `k`, of whatever kind.
#[inline(always)]
fn cleared(left: &mut Kept, k: usize)
    requires code { left.old.code ≡ 0 }
    requires lent { ok_lent left.old.track left.old.cycles ≡ true }
    ensures { left.new ≡ cleared left.old.track left.old.cycles k }
{
    let own = cycles_of(left.track, left.cycles).without(k);
    let notes = left.track.notes.without(k);
    let waves = left.track.waves.without(k);
    let sines = left.track.sines.without(k);
    with_tables(left, notes, waves, sines, own);
}

// What a call leaves that puts nothing: the target's old entries go, where nothing is refused.
#[inline(always)]
fn freed(mut left: Kept, size: usize, target: i32, short: bool, ok: bool) -> Kept
    requires { left.code ≡ 0 }
    ensures { result ≡ freed left.track size left.cycles target short ok }
{
    match asked(&left.track, size, &left.cycles, target, short, ok) {
        Ok(()) => cleared(&mut left, key_of(target)),
        Err(refusal) => left.code = refusal.number(),
    }
    left
}

// A kind of reservation, by its table: whether a place is left there, and the table with one more at its end.
trait Kind: Copy {
    ghost room: { Kept → Bool };

    ghost put: { Self → Kept → Kept };

    // The old entries of key `k` go and this one is put in, where its own table has a place, which is asked before the others
    // are made.
    fn put(self, left: &mut Kept, k: usize)
        requires code { left.old.code ≡ 0 }
        requires lent { ok_lent left.old.track left.old.cycles ≡ true }
        ensures { left.new ≡ placed left.old.track left.old.cycles room (put self) (cleared left.old.track left.old.cycles k) };
}

impl Kind for OnNoteValues {
    ghost room = { note_room };

    ghost put = { with_note };

    fn put(self, left: &mut Kept, k: usize) {
        let notes = left.track.notes.without(k);
        if PLACES <= notes.count {
            left.code = Refusal::NoPlace.number();
        } else {
            let own = cycles_of(left.track, left.cycles).without(k);
            let waves = left.track.waves.without(k);
            let sines = left.track.sines.without(k);
            with_tables(left, notes.with(self), waves, sines, own);
        }
    }
}

impl Kind for OnNoteWave {
    ghost room = { wave_room };

    ghost put = { with_wave };

    fn put(self, left: &mut Kept, k: usize) {
        let waves = left.track.waves.without(k);
        if PLACES <= waves.count {
            left.code = Refusal::NoPlace.number();
        } else {
            let own = cycles_of(left.track, left.cycles).without(k);
            let notes = left.track.notes.without(k);
            let sines = left.track.sines.without(k);
            with_tables(left, notes, waves.with(self), sines, own);
        }
    }
}

impl Kind for OnNoteSine {
    ghost room = { sine_room };

    ghost put = { with_sine };

    fn put(self, left: &mut Kept, k: usize) {
        let sines = left.track.sines.without(k);
        if PLACES <= sines.count {
            left.code = Refusal::NoPlace.number();
        } else {
            let own = cycles_of(left.track, left.cycles).without(k);
            let notes = left.track.notes.without(k);
            let waves = left.track.waves.without(k);
            with_tables(left, notes, waves, sines.with(self), own);
        }
    }
}

// A cycle stands in the lent table.
impl Kind for Cycle {
    ghost room = { cycle_room };

    ghost put = { with_cycle };

    fn put(self, left: &mut Kept, k: usize) {
        let own = cycles_of(left.track, left.cycles).without(k);
        if PLACES <= own.count {
            left.code = Refusal::NoPlace.number();
        } else {
            let notes = left.track.notes.without(k);
            let waves = left.track.waves.without(k);
            let sines = left.track.sines.without(k);
            with_tables(left, notes, waves, sines, own.with(self));
        }
    }
}

// What a setter leaves, whatever it sets: the target's old entries go, then a place is asked for, and one more is put there.
#[inline(always)]
fn set<T: Kind>(mut left: Kept, size: usize, target: i32, short: bool, ok: bool, e: T) -> Kept
    requires { left.code ≡ 0 }
    ensures { result ≡ reserving left.track size left.cycles target short ok T.room (T.put e) }
{
    match asked(&left.track, size, &left.cycles, target, short, ok) {
        Ok(()) => e.put(&mut left, key_of(target)),
        Err(refusal) => left.code = refusal.number(),
    }
    left
}

// Nothing stays reserved for a target, of whatever kind. Refuses 1, 2, 4.
pub fn remove_reserve(track: Track, size: usize, cycles: [Cycle; PLACES], target: i32) -> Kept
    ensures { result ≡ remove_reserve track size cycles target }
{
    freed(
        Kept {
            code: 0,
            track,
            cycles,
        },
        size,
        target,
        true,
        true,
    )
}

// Whether the lists of a target's notes go round.
fn repeat_of(options: [WriteOption; OPTIONS], target: i32) -> u32
    ensures { result ≡ (option_of options target).repeat }
{
    options[key_of(target)].repeat
}

// Reserves a value of a target for each of the next notes, round and round where its repeat stands. Refuses 1, 2, 3, 4, 6.
pub fn set_on_note(
    track: Track,
    size: usize,
    cycles: [Cycle; PLACES],
    target: i32,
    list: &[i32],
) -> Kept
    ensures { result ≡ set_on_note track size cycles target list.now }
{
    let listed = numbers_of(list);
    let values = listed.unwrap_or(empty());
    let options = track.options;
    let e = OnNoteValues {
        target,
        index: 0,
        cycling: repeat_of(options, target),
        values,
    };
    set(
        Kept {
            code: 0,
            track,
            cycles,
        },
        size,
        target,
        listed.is_ok(),
        note_ok(e),
        e,
    )
}

// Reserves a curve for each note of a target: low, high and length by threes, used as it is (`NORMAL`), stretched to the note
// (`EXPAND`) or gone through again and again (`REPEAT`). Refuses 1, 2, 3, 4, 6.
pub fn set_on_note_wave(
    track: Track,
    size: usize,
    cycles: [Cycle; PLACES],
    target: i32,
    mode: u32,
    list: &[i32],
) -> Kept
    ensures { result ≡ set_on_note_wave track size cycles target mode list.now }
{
    let listed = numbers_of(list);
    let values = listed.unwrap_or(empty());
    let e = OnNoteWave {
        target,
        mode,
        values,
    };
    set(
        Kept {
            code: 0,
            track,
            cycles,
        },
        size,
        target,
        listed.is_ok(),
        wave_ok(e),
        e,
    )
}

// Reserves a sine for each note of a target, which the sine has to name. Refuses 1, 2, 4, 6.
pub fn set_on_note_sine(
    track: Track,
    size: usize,
    cycles: [Cycle; PLACES],
    target: i32,
    sine: OnNoteSine,
) -> Kept
    ensures { result ≡ set_on_note_sine track size cycles target sine }
{
    let ok = sine_ok(sine) & (key_of(sine.target) == key_of(target));
    set(
        Kept {
            code: 0,
            track,
            cycles,
        },
        size,
        target,
        true,
        ok,
        sine,
    )
}

// Reserves a target's values at every `length` of time, from the track's time on; with a length of 0 or less, or no values,
// nothing stays reserved. Refuses 1, 2, 3, 4, 6.
pub fn set_on_cycle(
    track: Track,
    size: usize,
    cycles: [Cycle; PLACES],
    target: i32,
    length: i32,
    list: &[i32],
) -> Kept
    ensures { result ≡ set_on_cycle track size cycles target length list.now }
{
    let listed = numbers_of(list);
    let values = listed.unwrap_or(empty());
    let short = listed.is_ok();
    let ok = is_length(length) & numbers_ok(values);
    if (length <= 0) | (values.count == 0) {
        return freed(
            Kept {
                code: 0,
                track,
                cycles,
            },
            size,
            target,
            short,
            ok,
        );
    }
    let e = Cycle {
        target,
        length,
        next: track.timepos,
        index: 0,
        values,
    };
    set(
        Kept {
            code: 0,
            track,
            cycles,
        },
        size,
        target,
        short,
        ok,
        e,
    )
}

// The older calls. `remove_reserve` of a controller. Refuses 1, 2, 4.
pub fn remove_cc_on(track: Track, size: usize, cycles: [Cycle; PLACES], number: i32) -> Kept
    ensures { result ≡ remove_cc_on track size cycles number }
{
    remove_reserve(track, size, cycles, cc_target(number))
}

// `set_on_note` of a controller. Refuses 1, 2, 3, 4, 6.
pub fn set_cc_on_note(
    track: Track,
    size: usize,
    cycles: [Cycle; PLACES],
    number: i32,
    list: &[i32],
) -> Kept
    ensures { result ≡ set_cc_on_note track size cycles number list.now }
{
    set_on_note(track, size, cycles, cc_target(number), list)
}

// `set_on_note_wave` of a controller, the wave used as it is. Refuses 1, 2, 3, 4, 6.
pub fn set_cc_on_note_wave(
    track: Track,
    size: usize,
    cycles: [Cycle; PLACES],
    number: i32,
    list: &[i32],
) -> Kept
    ensures { result ≡ set_cc_on_note_wave track size cycles number list.now }
{
    set_on_note_wave(track, size, cycles, cc_target(number), NORMAL, list)
}

// `set_on_note_wave` of a bend by its argument, the wave used as it is. Refuses 1, 3, 4, 6.
pub fn set_pb_on_note_wave(
    track: Track,
    size: usize,
    cycles: [Cycle; PLACES],
    big: i32,
    list: &[i32],
) -> Kept
    ensures { result ≡ set_pb_on_note_wave track size cycles big list.now }
{
    set_on_note_wave(track, size, cycles, pb_target(big), NORMAL, list)
}

// `remove_reserve` of both bends. Refuses 1, 4.
pub fn remove_pb_on_note_wave(track: Track, size: usize, cycles: [Cycle; PLACES]) -> Kept
    ensures { result ≡ remove_pb_on_note_wave track size cycles }
{
    remove_reserve(track, size, cycles, 129)
}

// No list for notes stays reserved for a controller; what is of another kind stays. Refuses 2, 4.
pub fn remove_cc_on_note(mut track: Track, number: i32) -> TrackAnswer
    ensures { result ≡ remove_cc_on_note track number }
{
    let target = cc_target(number);
    if let Err(refusal) = ask_track(&track, target, true) {
        return TrackAnswer {
            code: refusal.number(),
            track,
        };
    }
    let key = key_of(target);
    track.notes = track.notes.without(key);
    TrackAnswer { code: 0, track }
}

// No wave and no sine stays reserved for a controller; what is of another kind stays. Refuses 2, 4.
pub fn remove_cc_on_note_wave(mut track: Track, number: i32) -> TrackAnswer
    ensures { result ≡ remove_cc_on_note_wave track number }
{
    let target = cc_target(number);
    if let Err(refusal) = ask_track(&track, target, true) {
        return TrackAnswer {
            code: refusal.number(),
            track,
        };
    }
    let key = key_of(target);
    track.waves = track.waves.without(key);
    track.sines = track.sines.without(key);
    TrackAnswer { code: 0, track }
}
