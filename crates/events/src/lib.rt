// An event, by value: what the Rust's `Event` holds, in eight numbers. Data is a stretch of a byte store that is
// lent beside it and never written; of the store only the length is asked.
// The constructors of `Event` and its size are what a product calls: each tests its own numbers. Their namesakes
// that end in `_event` make the event alone, for callers that know the numbers.
#![tactic(auto, unfolding(crate::specs::Kinds::is_kind, crate::specs::Kinds::has_data, crate::specs::Kinds::bytes_of, crate::specs::Events::ok_numbered, crate::specs::Events::is_stretch, crate::specs::Events::ok_data, crate::specs::Events::ok_event, laws::specs::Integers::inside))]

ghost use Rattle.std.specs.Prelude.{◌≡◌, length};
ghost use Rattle.laws.specs.Integers.{cut};
ghost use Rattle.numbers.specs.Refusals.{number_of};
ghost use Rattle.events.specs.Kinds.{Reads, is_kind, has_data, bytes_of};
ghost use Rattle.events.specs.Events.{zero_event, note_event, voice_event, cc_event, pitch_bend_event, pitch_bend_range_event, meta_event, direct_smf_event, sysex_event, ok_numbered, is_stretch, ok_data, ok_plain, ok_event, refused, made, made_cc, size_of};

use numbers::{Refusal, is_channel, is_controller, is_event_time, is_word};

// The kinds, in the Rust's order: a record holds the number, which a caller in C reads and writes.
pub const NOTE_ON: i64 = 0;

pub const NOTE_OFF: i64 = 1;

pub const CONTROL_CHANGE: i64 = 2;

pub const PITCH_BEND: i64 = 3;

pub const PITCH_BEND_RANGE: i64 = 4;

pub const VOICE: i64 = 5;

pub const META: i64 = 6;

pub const SYS_EX: i64 = 7;

pub const DIRECT_SMF: i64 = 8;

// A kind as code that switches on it reads it.
#[derive(Clone, Copy, Debug, PartialEq, Eq)]
pub enum Kind {
    NoteOn,
    NoteOff,
    ControlChange,
    PitchBend,
    PitchBendRange,
    Voice,
    Meta,
    SysEx,
    DirectSmf,
}

impl TryFrom<i64> for Kind {
    type Error = Refusal;

    ghost try_from_gives = { Reads };

    // The kind that a record's number says. Refuses 4 a number that is none's.
    fn try_from(kind: i64) -> Result<Self, Refusal> {
        match kind {
            NOTE_ON => Ok(Kind::NoteOn),
            NOTE_OFF => Ok(Kind::NoteOff),
            CONTROL_CHANGE => Ok(Kind::ControlChange),
            PITCH_BEND => Ok(Kind::PitchBend),
            PITCH_BEND_RANGE => Ok(Kind::PitchBendRange),
            VOICE => Ok(Kind::Voice),
            META => Ok(Kind::Meta),
            SYS_EX => Ok(Kind::SysEx),
            DIRECT_SMF => Ok(Kind::DirectSmf),
            _ => Err(Refusal::OutOfRange),
        }
    }
}

#[repr(C)]
#[derive(Clone, Copy)]
pub struct Event {
    pub kind: i64,
    pub time: i64,
    pub channel: i64,
    pub v1: i64,
    pub v2: i64,
    pub v3: i64,
    pub offset: i64,
    pub len: i64,
}

// What a constructor answers: 0 and the event, or the refusal's number and the event of zeros.
#[repr(C)]
#[derive(Clone, Copy)]
pub struct Made {
    pub code: u32, // a number beside what it goes with: C reads this record
    pub event: Event,
}

// An event's size: 0 and the bytes, or 4 and none.
#[repr(C)]
#[derive(Clone, Copy)]
pub struct Size {
    pub code: u32, // a number beside what it goes with: C reads this record
    pub bytes: usize,
}

// The event of zeros: what stands where there is none.
pub fn zero_event() -> Event
    ensures { result ≡ zero_event }
{
    Event {
        kind: 0,
        time: 0,
        channel: 0,
        v1: 0,
        v2: 0,
        v3: 0,
        offset: 0,
        len: 0,
    }
}

pub fn note_event(time: i64, channel: i64, number: i64, len: i64, vel: i64) -> Event
    ensures { result ≡ note_event time channel number len vel }
{
    Event {
        kind: NOTE_ON,
        time,
        channel,
        v1: number,
        v2: len,
        v3: vel,
        ..zero_event()
    }
}

pub fn voice_event(time: i64, channel: i64, value: i64) -> Event
    ensures { result ≡ voice_event time channel value }
{
    Event {
        kind: VOICE,
        time,
        channel,
        v1: value,
        ..zero_event()
    }
}

pub fn cc_event(time: i64, channel: i64, number: i64, value: i64) -> Event
    ensures { result ≡ cc_event time channel number value }
{
    Event {
        kind: CONTROL_CHANGE,
        time,
        channel,
        v1: number,
        v2: value,
        ..zero_event()
    }
}

pub fn pitch_bend_event(time: i64, channel: i64, value: i64) -> Event
    ensures { result ≡ pitch_bend_event time channel value }
{
    Event {
        kind: PITCH_BEND,
        time,
        channel,
        v1: value,
        ..zero_event()
    }
}

pub fn pitch_bend_range_event(time: i64, channel: i64, value: i64) -> Event
    ensures { result ≡ pitch_bend_range_event time channel value }
{
    Event {
        kind: PITCH_BEND_RANGE,
        time,
        channel,
        v1: value,
        ..zero_event()
    }
}

pub fn meta_event(time: i64, v1: i64, v2: i64, v3: i64, offset: i64, len: i64) -> Event
    ensures { result ≡ meta_event time v1 v2 v3 offset len }
{
    Event {
        kind: META,
        time,
        v1,
        v2,
        v3,
        offset,
        len,
        ..zero_event()
    }
}

pub fn direct_smf_event(time: i64, offset: i64, len: i64) -> Event
    ensures { result ≡ direct_smf_event time offset len }
{
    Event {
        kind: DIRECT_SMF,
        time,
        offset,
        len,
        ..zero_event()
    }
}

pub fn sysex_event(time: i64, offset: i64, len: i64) -> Event
    ensures { result ≡ sysex_event time offset len }
{
    Event {
        kind: SYS_EX,
        time,
        offset,
        len,
        ..zero_event()
    }
}

// Whether `kind` is one of the nine.
fn is_kind(kind: i64) -> bool
    ensures { result ≡ is_kind kind }
{
    Kind::try_from(kind).is_ok()
}

// Whether events of this kind have data.
pub fn has_data(kind: i64) -> bool
    ensures { result ≡ has_data kind }
{
    matches!(
        Kind::try_from(kind),
        Ok(Kind::Meta | Kind::SysEx | Kind::DirectSmf)
    )
}

// Whether the number of an event, if it is a controller's, is one.
fn numbered_ok(e: Event) -> bool
    ensures { result ≡ ok_numbered e }
{
    e.kind != CONTROL_CHANGE || is_controller(e.v1)
}

// Whether `len` bytes from `offset` on lie inside a store of `store` bytes.
fn is_stretch(offset: i64, len: i64, store: usize) -> bool
    ensures { result ≡ is_stretch store offset len }
{
    match (usize::try_from(offset), usize::try_from(len)) {
        (Ok(from), Ok(size)) => from.checked_add(size).is_some_and(|end| end <= store),
        _ => false,
    }
}

// Whether an event has the data that its kind allows: no bytes at the store's start are asked no further, as most events have
// none.
fn data_ok(e: Event, store: usize) -> bool
    ensures { result ≡ ok_data store e }
{
    (e.offset == 0) & (e.len == 0) || has_data(e.kind) && is_stretch(e.offset, e.len, store)
}

// Whether an event's numbers, but for its data, may be stored.
fn plain_ok(e: Event) -> bool
    ensures { result ≡ ok_plain e }
{
    is_kind(e.kind)
        & is_event_time(e.time)
        & is_channel(e.channel)
        & is_word(e.v1)
        & is_word(e.v2)
        & is_word(e.v3)
        & numbered_ok(e)
}

// Whether an event may be stored beside a store of `store` bytes.
pub fn event_ok(e: Event, store: usize) -> bool
    ensures { result ≡ ok_event store e }
{
    plain_ok(e) && data_ok(e, store)
}

// A length of data as a count of bytes.
fn data_bytes(len: i64) -> usize
    ensures { result ≡ cut len }
{
    usize::try_from(len).unwrap_or(0)
}

// The bytes that an event counts in the budget.
pub fn bytes_of(e: Event) -> usize
    ensures { result ≡ bytes_of e.kind e.len }
{
    match Kind::try_from(e.kind) {
        Ok(Kind::NoteOn | Kind::PitchBendRange) => 16,
        Ok(Kind::Meta | Kind::SysEx) => 12 + data_bytes(e.len),
        Ok(Kind::DirectSmf) => 8 + data_bytes(e.len),
        _ => 8,
    }
}

fn refuse(why: Refusal) -> Made
    ensures { result ≡ refused (number_of why) }
{
    Made {
        code: why.number(),
        event: zero_event(),
    }
}

// The event, if it may be stored beside a store of `store` bytes.
fn tested(e: Event, store: usize) -> Made
    ensures { result ≡ made store e }
{
    if event_ok(e, store) {
        Made { code: 0, event: e }
    } else {
        refuse(Refusal::OutOfRange)
    }
}

impl Event {
    // A note of a length and a velocity. Refuses 4.
    pub fn note(time: i64, channel: i64, number: i64, len: i64, vel: i64) -> Made
        ensures { result ≡ made 0 (note_event time channel number len vel) }
    {
        tested(note_event(time, channel, number, len, vel), 0)
    }

    // A program. Refuses 4.
    pub fn voice(time: i64, channel: i64, value: i64) -> Made
        ensures { result ≡ made 0 (voice_event time channel value) }
    {
        tested(voice_event(time, channel, value), 0)
    }

    // A controller's value. Refuses 2 a number that is no controller's, then 4.
    pub fn cc(time: i64, channel: i64, number: i64, value: i64) -> Made
        ensures { result ≡ made_cc time channel number value }
    {
        if is_controller(number) {
            tested(cc_event(time, channel, number, value), 0)
        } else {
            refuse(Refusal::NoTarget)
        }
    }

    // A bend. Refuses 4.
    pub fn pitch_bend(time: i64, channel: i64, value: i64) -> Made
        ensures { result ≡ made 0 (pitch_bend_event time channel value) }
    {
        tested(pitch_bend_event(time, channel, value), 0)
    }

    // A bend's range. Refuses 4.
    pub fn pitch_bend_range(time: i64, channel: i64, value: i64) -> Made
        ensures { result ≡ made 0 (pitch_bend_range_event time channel value) }
    {
        tested(pitch_bend_range_event(time, channel, value), 0)
    }

    // A meta event, its data the `len` bytes of `store` from `offset` on. Refuses 4.
    pub fn meta(time: i64, v1: i64, v2: i64, v3: i64, offset: i64, len: i64, store: &[u8]) -> Made
        ensures { result ≡ made (length store.now) (meta_event time v1 v2 v3 offset len) }
    {
        tested(meta_event(time, v1, v2, v3, offset, len), store.len())
    }

    // Bytes of `store` that are written as they stand. Refuses 4.
    pub fn direct_smf(time: i64, offset: i64, len: i64, store: &[u8]) -> Made
        ensures { result ≡ made (length store.now) (direct_smf_event time offset len) }
    {
        tested(direct_smf_event(time, offset, len), store.len())
    }

    // A system exclusive message of bytes of `store`. Refuses 4.
    pub fn sysex_raw(time: i64, offset: i64, len: i64, store: &[u8]) -> Made
        ensures { result ≡ made (length store.now) (sysex_event time offset len) }
    {
        tested(sysex_event(time, offset, len), store.len())
    }

    // The bytes that an event counts in the budget. Refuses 4 an event that may not be stored beside `store`.
    pub fn estimated_midi_bytes(self, store: &[u8]) -> Size
        ensures { result ≡ size_of (length store.now) self }
    {
        if event_ok(self, store.len()) {
            Size {
                code: 0,
                bytes: bytes_of(self),
            }
        } else {
            Size {
                code: Refusal::OutOfRange.number(),
                bytes: 0,
            }
        }
    }
}
