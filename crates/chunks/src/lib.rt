// The track chunk of Standard MIDI Files 1.0, written from the event list: for each event its gap and its message, with
// full status, and the end of track last. One pass tests and counts, so that a list that cannot be written or an output
// that is too short is refused with nothing written; a second pass writes. Only where an event cannot be written does a
// pass of its own ask why.
#![tactic(auto)]

ghost use Rattle.std.specs.Prelude.{◌≡◌, true, [], ◌∷◌, ◌++◌, ◌+◌, ◌/◌, ◌%◌, ◌≤◌, ◌<◌, pos, length};
ghost use Rattle.laws.specs.Integers.{cut};
ghost use Rattle.numbers.specs.Ranges.{is_event_time, is_channel, is_bend};
ghost use Rattle.eventlist.specs.Rows.{rows_of, events_of};
ghost use Rattle.text.specs.Laying.{laid};
ghost use Rattle.chunks.specs.Chunks.{message_of, written_after, body_of, big_endian, mark, length_top};
ghost use Rattle.chunks.specs.Writing.{is_data, fits, head_bytes, room_for, chunk_written, chunk_left};
ghost use Rattle.chunks.specs.Steps.{tallied, weighed, answer_of, well_after, bytes_of, Writable, Ready};

use eventlist::{list_ok, read_event};
use events::{CONTROL_CHANGE, Event, NOTE_OFF, NOTE_ON, PITCH_BEND, VOICE, event_ok};
use numbers::{Refusal, ask, is_bend, is_channel, is_event_time, is_word, within};
use quantities::{put_quantity, quantity_size};
use text::{put, put_byte};

// The statuses of channel 0.
const STATUS_NOTE_OFF: u8 = 128;

const STATUS_NOTE_ON: u8 = 144;

const STATUS_CONTROL: u8 = 176;

const STATUS_PROGRAM: u8 = 192;

const STATUS_BEND: u8 = 224;

// The longest gap.
const LONGEST: i64 = 268435455;

// The bytes of a chunk before its body, and of the end of track with its gap.
const HEAD: usize = 8;

const TAIL: usize = 4;

// The first length that four bytes do not hold.
const LENGTH_TOP: usize = 4294967296;

// What `write_chunk` answers: 0 and the bytes of the chunk, or the refusal's number and 0.
#[repr(C)]
#[derive(Clone, Copy)]
pub struct Chunk {
    pub code: u32, // a number beside what it goes with: C reads this record
    pub bytes: usize,
}

// Whether a number is a data byte.
fn is_data(z: i64) -> bool
    ensures { result ≡ is_data z }
{
    within(0, z, 127)
}

// Whether an event's kind is written, and what is written of it fits. Every test is made, so that no jump hangs on the kind,
// which no processor foresees.
fn event_fits(e: Event) -> bool
    ensures { result ≡ fits e }
{
    let first = is_data(e.v1);
    ((e.kind == NOTE_ON) & first & is_data(e.v3))
        | ((e.kind == NOTE_OFF) & first)
        | ((e.kind == CONTROL_CHANGE) & first & is_data(e.v2))
        | ((e.kind == VOICE) & first)
        | ((e.kind == PITCH_BEND) & is_bend(e.v1))
}

// How many bytes a kind's message has.
fn message_size(e: Event) -> usize
    ensures { result ≡ length (message_of e) }
{
    match e.kind {
        NOTE_ON | NOTE_OFF | CONTROL_CHANGE | PITCH_BEND => 3,
        VOICE => 2,
        _ => 0,
    }
}

// A gap as a quantity.
fn as_quantity(gap: i64) -> u64
    ensures { result ≡ cut gap }
{
    u64::try_from(gap).unwrap_or(0)
}

// The bytes of an event behind a time.
fn event_size(last: i64, e: Event) -> usize
    requires { (is_event_time last ≡ true) × (is_event_time e.time ≡ true) }
    ensures value { result ≡ length (written_after last e) }
    ensures upper_bound { result ≤ 7 }
{
    let gap = e.time - last;
    quantity_size(as_quantity(gap)) + message_size(e)
}

// What a pass over the list has seen: the time of the last event, whether each follows the one before it, whether each
// fits, and the bytes of all.
#[derive(Clone, Copy)]
struct Tally {
    last: i64,
    gaps: bool,
    fields: bool,
    bytes: usize,
}

// One event more.
fn one_more(t: Tally, e: Event) -> Tally
    requires { (is_event_time t.last ≡ true) × ((is_event_time e.time ≡ true) × (t.bytes + 7 < 18446744073709551616)) }
    ensures { result ≡ tallied t e }
{
    let gap = e.time - t.last;
    let size = event_size(t.last, e);
    Tally {
        last: e.time,
        gaps: t.gaps & within(0, gap, LONGEST),
        fields: t.fields & event_fits(e),
        bytes: t.bytes + size,
    }
}

// Goes over the `count` events, beside a store of `store` bytes, and asks everything of each: the length of the body, or why
// it is not written. Where one may not be stored it asks no further.
fn weigh(events: &[i64], count: usize, store: usize) -> Result<usize, Refusal>
    requires { count ≤ length (rows_of events.now) }
    ensures { result ≡ weighed store (events_of events.now count) }
{
    let mut t = Tally {
        last: 0,
        gaps: true,
        fields: true,
        bytes: 0,
    };
    for i in 0..count {
        let e = read_event(events, i);
        ask(event_ok(e, store), Refusal::OutOfRange)?;
        t = one_more(t, e);
    }
    ask(t.gaps, Refusal::OutOfOrder)?;
    ask(t.fields, Refusal::Unwritable)?;
    Ok(t.bytes + TAIL)
}

// Where the next event is put, and the time that its gap is counted from.
#[derive(Clone, Copy)]
struct Pen {
    at: usize,
    time: i64,
}

// Whether an event that stands behind a time can be written: then it may be stored, whatever the store. What every event of a
// list that is written is.
fn is_well(last: i64, e: Event) -> bool
    requires { is_event_time last ≡ true }
    ensures { result ≡ well_after last e }
{
    if !is_event_time(e.time) {
        return false;
    }
    let gap = e.time - last;
    within(0, gap, LONGEST)
        & is_channel(e.channel)
        & is_word(e.v2)
        & is_word(e.v3)
        & (e.offset == 0)
        & (e.len == 0)
        & event_fits(e)
}

// The pen behind an event.
fn move_on(p: Pen, e: Event) -> Pen
    requires { (is_event_time p.time ≡ true) × ((is_event_time e.time ≡ true) × (p.at + 7 < 18446744073709551616)) }
    ensures { result ≡ record { at = p.at + length (written_after p.time e); time = e.time } }
{
    Pen {
        at: p.at + event_size(p.time, e),
        time: e.time,
    }
}

// The same answer as `weigh`, which is asked only where an event cannot be written.
fn measure(events: &[i64], count: usize, store: usize) -> Result<usize, Refusal>
    requires { count ≤ length (rows_of events.now) }
    ensures { result ≡ weighed store (events_of events.now count) }
{
    let mut p = Pen { at: 0, time: 0 };
    for i in 0..count {
        let e = read_event(events, i);
        if !is_well(p.time, e) {
            return weigh(events, count, store);
        }
        p = move_on(p, e);
    }
    Ok(p.at + TAIL)
}

// Whether a chunk with a body of so many bytes has a length of four bytes, and room.
fn has_room(body: usize, room: usize) -> bool
    ensures { result ≡ room_for body room }
{
    body < LENGTH_TOP && HEAD + body <= room
}

// The bytes of the chunk of a list, or why it is not written to an output of `room` bytes; nothing is written yet.
fn judge(events: &[i64], count: usize, store: usize, room: usize) -> Result<usize, Refusal>
    ensures { answer_of result ≡ chunk_written store events.now count room }
{
    ask(list_ok(events, count), Refusal::NotAList)?;
    let body = measure(events, count, store)?;
    ask(has_room(body, room), Refusal::OutputShort)?;
    Ok(HEAD + body)
}

// A message of two or three bytes.
#[derive(Clone, Copy)]
struct Message {
    status: u8,
    first: u8,
    second: Option<u8>,
}

fn short(status: u8, first: u8) -> Message
    ensures { bytes_of result ≡ status ∷ first ∷ [] }
{
    Message {
        status,
        first,
        second: None,
    }
}

fn long(status: u8, first: u8, second: u8) -> Message
    ensures { bytes_of result ≡ status ∷ first ∷ second ∷ [] }
{
    Message {
        status,
        first,
        second: Some(second),
    }
}

// A data byte.
fn data(z: i64) -> u8
    requires { is_data z ≡ true }
    ensures { result ≡ cut z }
{
    z as u8
}

// The low and the high seven bits of a bend.
fn low(bend: i64) -> u8
    requires { is_bend bend ≡ true }
    ensures { result ≡ cut bend % 128 }
{
    (bend as u64 % 128) as u8
}

fn high(bend: i64) -> u8
    requires { is_bend bend ≡ true }
    ensures { result ≡ cut bend / 128 }
{
    (bend as u64 / 128) as u8
}

// A status on a channel.
fn status(of: u8, channel: i64) -> u8
    requires { (of ≤ 224) × (is_channel channel ≡ true) }
    ensures { result ≡ of + cut channel }
{
    of + channel as u8
}

// The message of an event that fits.
fn message_of(e: Event) -> Message
    requires { (fits e ≡ true) × (is_channel e.channel ≡ true) }
    ensures { bytes_of result ≡ message_of e }
{
    match e.kind {
        NOTE_ON => long(status(STATUS_NOTE_ON, e.channel), data(e.v1), data(e.v3)),
        NOTE_OFF => long(status(STATUS_NOTE_OFF, e.channel), data(e.v1), 0),
        CONTROL_CHANGE => long(status(STATUS_CONTROL, e.channel), data(e.v1), data(e.v2)),
        PITCH_BEND => long(status(STATUS_BEND, e.channel), low(e.v1), high(e.v1)),
        _ => short(status(STATUS_PROGRAM, e.channel), data(e.v1)),
    }
}

// Puts a message at a place and answers the place behind it.
fn put_message(out: &mut [u8], at: usize, m: Message) -> usize
    requires { at + length (bytes_of m) ≤ length out.old }
    ensures { (out.new ≡ laid at (bytes_of m) out.old) × (result ≡ at + length (bytes_of m)) }
{
    let p = put_byte(out, at, m.status);
    let q = put_byte(out, p, m.first);
    match m.second {
        Some(second) => put_byte(out, q, second),
        None => q,
    }
}

// Puts an event, its gap and its message.
fn put_event(out: &mut [u8], p: Pen, e: Event) -> Pen
    requires { Writable p.time e × (p.at + length (written_after p.time e) ≤ length out.old) }
    ensures { (out.new ≡ laid p.at (written_after p.time e) out.old)
        × (result ≡ record { at = p.at + length (written_after p.time e); time = e.time }) }
{
    let gap = e.time - p.time;
    let q = put_quantity(out, p.at, gap as u64);
    let at = put_message(out, q, message_of(e));
    Pen { at, time: e.time }
}

// Puts the body of the `count` events at a place and answers the place behind it.
fn put_body(events: &[i64], count: usize, out: &mut [u8], at: usize) -> usize
    requires { (count ≤ length (rows_of events.now)) × (Ready (pos 0) (events_of events.now count)
        × (at + length (body_of (events_of events.now count)) ≤ length out.old)) }
    ensures { (out.new ≡ laid at (body_of (events_of events.now count)) out.old)
        × (result ≡ at + length (body_of (events_of events.now count))) }
{
    let mut p = Pen { at, time: 0 };
    for i in 0..count {
        p = put_event(out, p, read_event(events, i));
    }
    put(out, p.at, &[0, 255, 47, 0])
}

// Puts what stands before a body of so many bytes, and answers where that begins.
fn put_head(out: &mut [u8], body: usize) -> usize
    requires { (head_bytes ≤ length out.old) × (body < length_top) }
    ensures { (out.new ≡ laid 0 (mark ++ big_endian body) out.old) × (result ≡ head_bytes) }
{
    let at = put(out, 0, b"MTrk");
    put(out, at, &(body as u32).to_be_bytes())
}

// Writes the events as a track chunk of Standard MIDI Files 1.0 at the start of `out`, with full status on every event and
// the end of track last. Answers how many bytes the chunk has; what stands in `out` behind them is left. Refuses 1, 4; 10 a
// list that is not in order, whose first time is below 0 or that has a gap above 268,435,455; 11 a kind that is not
// written, or a field outside its width; 12 an output that is too short. Then all of `out` is left as it is.
pub fn write_chunk(events: &[i64], count: usize, store: &[u8], out: &mut [u8]) -> Chunk
    ensures { (result ≡ chunk_written (length store.now) events.now count (length out.old))
        × (out.new ≡ chunk_left (length store.now) events.now count out.old) }
{
    match judge(events, count, store.len(), out.len()) {
        Ok(bytes) => {
            let at = put_head(out, bytes - HEAD);
            put_body(events, count, out, at);
            Chunk { code: 0, bytes }
        }
        Err(refusal) => Chunk {
            code: refusal.number(),
            bytes: 0,
        },
    }
}
