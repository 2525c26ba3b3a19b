// A track chunk of Standard MIDI Files 1.0 read into the event list. Files come from anywhere, so nothing is taken on trust: the
// first pass goes over the bytes event by event up to the end of track or the first fault, and counts what is kept; only a
// chunk that is well to its last byte, and whose events have room, is read into the list, by a second pass over the same steps.
#![tactic(auto)]

ghost use Rattle.std.specs.Prelude.{◌≡◌, true, false, cond, [], ◌∷◌, ℕ, ◌+◌, ◌*◌, ◌%◌, ◌≤◌, ◌<◌, pos, eqb, length, take, drop, IfSome};
ghost use Rattle.events.specs.Kinds.{note_on, note_off};
ghost use Rattle.events.specs.Events.{plain_event};
ghost use Rattle.eventlist.specs.Rows.{rows_of};
ghost use Rattle.text.specs.Laying.{laid};
ghost use Rattle.quantities.specs.Quantities.{quantity_top};
ghost use Rattle.chunks.specs.Chunks.{length_top};
ghost use Rattle.chunks.specs.Reader.{single, fault, step_over, end_in, meta_in, second_in, message_in, status_in, seen_in, read_body};
ghost use Rattle.reader.specs.Reading.{kept_in, is_chunk, read_taken, read_left};
ghost use Rattle.reader.specs.Steps.{tells, Counts, Double, is_told, outlined, moved};

use eventlist::{Taken, WIDTH, clear_from, list_ok, write_event};
use events::{CONTROL_CHANGE, Event, NOTE_OFF, NOTE_ON, PITCH_BEND, VOICE};
use quantities::quantity_at;

// The first status, which is also the first byte that is no data.
const STATUS: u8 = 128;

// The first status that is of no channel; system exclusive, begun and gone on with; Meta, and its type for the end of track.
const SYSTEM: u8 = 240;

const EXCLUSIVE: u8 = 240;

const EXCLUSIVE_MORE: u8 = 247;

const META: u8 = 255;

const END_OF_TRACK: u8 = 47;

// The running status behind a Meta event or system exclusive: none.
const ENDED: u64 = 0;

// The bytes of a chunk before its body.
const HEAD: usize = 8;

// The latest time of an event.
const LATEST: u64 = 4398046511104;

// What stands at a place of a body: 0 an event, 1 the end of track, 14 or 15 a fault; its bytes, the running status behind it,
// 0 where there is none, and its gap; and of a channel's message the data bytes, the second 0 where it has none.
#[derive(Clone, Copy)]
struct Found {
    code: u32,
    used: usize,
    status: u64,
    gap: u64,
    sent: bool,
    first: u8,
    second: u8,
}

fn faulty(code: u32) -> Found
    ensures at_each_time { (t : ℕ) → tells t result ≡ fault code }
    ensures gap_lt_quantity_top { result.gap < quantity_top }
{
    Found {
        code: code,
        used: 0,
        status: 0,
        gap: 0,
        sent: false,
        first: 0,
        second: 0,
    }
}

// A Meta event or system exclusive: as many bytes as the quantity says, which stands `used` bytes behind `from`.
fn step_over(s: &[u8], from: usize, used: usize, gap: u64) -> Found
    requires { (from + used ≤ length s.now) × (gap < quantity_top) }
    ensures at_each_time { (t : ℕ) → tells t result ≡ step_over gap used (drop (from + used) s.now) }
    ensures gap_lt_quantity_top { result.gap < quantity_top }
{
    let at = from + used;
    let Some(n) = quantity_at(s, at) else {
        return faulty(14);
    };
    let bytes = n.used + n.value as usize;
    if s.len() - at < bytes {
        return faulty(14);
    }
    let all = used + bytes;
    Found {
        code: 0,
        used: all,
        status: ENDED,
        gap: gap,
        sent: false,
        first: 0,
        second: 0,
    }
}

// The end of track, from its length on.
fn end_at(s: &[u8], from: usize, used: usize, gap: u64) -> Found
    requires { (from + used ≤ length s.now) × (gap < quantity_top) }
    ensures at_each_time { (t : ℕ) → tells t result ≡ end_in gap used (drop (from + used) s.now) }
    ensures gap_lt_quantity_top { result.gap < quantity_top }
{
    let at = from + used;
    let Some(n) = quantity_at(s, at) else {
        return faulty(14);
    };
    if n.value != 0 {
        return faulty(14);
    }
    if n.used != s.len() - at {
        return faulty(15);
    }
    Found {
        code: 1,
        used: used + n.used,
        status: 0,
        gap: gap,
        sent: false,
        first: 0,
        second: 0,
    }
}

// A Meta event from its type on.
fn meta_at(s: &[u8], from: usize, used: usize, gap: u64) -> Found
    requires { (from + used ≤ length s.now) × (gap < quantity_top) }
    ensures at_each_time { (t : ℕ) → tells t result ≡ meta_in gap used (drop (from + used) s.now) }
    ensures gap_lt_quantity_top { result.gap < quantity_top }
{
    let at = from + used;
    if s.len() <= at {
        return faulty(14);
    }
    let kind = s[at];
    if STATUS <= kind {
        return faulty(14);
    }
    if kind == END_OF_TRACK {
        return end_at(s, from, used + 1, gap);
    }
    step_over(s, from, used + 1, gap)
}

// Whether a status has one data byte: a program, or the aftertouch of a channel.
fn is_single(status: u64) -> bool
    ensures { result ≡ single status }
{
    let says = status / 16;
    (says == 12) | (says == 13)
}

// A channel's message, whole.
fn sent(status: u64, first: u8, second: u8, used: usize, gap: u64) -> Found
    ensures { result ≡ record { code = 0; used = used; status = status; gap = gap; sent = true; first = first; second = second } }
{
    Found {
        code: 0,
        used: used,
        status: status,
        gap: gap,
        sent: true,
        first: first,
        second: second,
    }
}

// The second data byte of a message.
fn second_at(s: &[u8], from: usize, used: usize, gap: u64, status: u64, first: u8) -> Found
    requires { (from + used ≤ length s.now) × (gap < quantity_top) }
    ensures at_each_time { (t : ℕ) → tells t result ≡ second_in kept_in status (t + gap) gap used first (drop (from + used) s.now) }
    ensures gap_lt_quantity_top { result.gap < quantity_top }
{
    let at = from + used;
    if s.len() <= at {
        return faulty(14);
    }
    let second = s[at];
    if STATUS <= second {
        return faulty(14);
    }
    sent(status, first, second, used + 1, gap)
}

// The data bytes of a status.
fn message_at(s: &[u8], from: usize, used: usize, gap: u64, status: u64) -> Found
    requires { (from + used ≤ length s.now) × (gap < quantity_top) }
    ensures at_each_time { (t : ℕ) → tells t result ≡ message_in kept_in status (t + gap) gap used (drop (from + used) s.now) }
    ensures gap_lt_quantity_top { result.gap < quantity_top }
{
    let at = from + used;
    if s.len() <= at {
        return faulty(14);
    }
    let first = s[at];
    if STATUS <= first {
        return faulty(14);
    }
    if is_single(status) {
        return sent(status, first, 0, used + 1, gap);
    }
    second_at(s, from, used + 1, gap, status, first)
}

// What stands behind a gap, under a running status, 0 where there is none.
fn status_at(s: &[u8], from: usize, used: usize, gap: u64, running: u64) -> Found
    requires { (from + used ≤ length s.now) × (gap < quantity_top) }
    ensures at_each_time { (t : ℕ) → tells t result ≡ status_in kept_in running (t + gap) gap used (drop (from + used) s.now) }
    ensures gap_lt_quantity_top { result.gap < quantity_top }
{
    let at = from + used;
    if s.len() <= at {
        return faulty(14);
    }
    let x = s[at];
    if x < STATUS {
        if running == 0 {
            return faulty(14);
        }
        return message_at(s, from, used, gap, running);
    }
    if x < SYSTEM {
        return message_at(s, from, used + 1, gap, x as u64);
    }
    if x == META {
        return meta_at(s, from, used + 1, gap);
    }
    if (x == EXCLUSIVE) | (x == EXCLUSIVE_MORE) {
        return step_over(s, from, used + 1, gap);
    }
    faulty(14)
}

// The event at a place, under a running status.
fn event_at(s: &[u8], from: usize, running: u64) -> Found
    requires { from ≤ length s.now }
    ensures at_each_time { (t : ℕ) → tells t result ≡ seen_in kept_in running t (drop from s.now) }
    ensures gap_lt_quantity_top { result.gap < quantity_top }
{
    if s.len() <= from {
        return faulty(15);
    }
    let Some(n) = quantity_at(s, from) else {
        return faulty(14);
    };
    status_at(s, from, n.used, n.value, running)
}

// Whether a status is a channel's and has two data bytes.
fn is_double(status: u64) -> bool
    ensures { result ≡ true → Double status }
{
    let says = status / 16;
    ((8 <= says) & (says < 12)) | (says == 14)
}

// Whether an event is kept of a message of two data bytes: of any but the aftertouch of a note.
fn is_told(status: u64) -> bool
    ensures { result ≡ is_told status }
{
    status / 16 != 10
}

// A message of two data bytes, the first of which is known, where it is one.
fn quick_second(
    s: &[u8],
    from: usize,
    used: usize,
    gap: u64,
    status: u64,
    first: u8,
) -> Option<Found>
    requires { (from + used < length s.now) × (gap < quantity_top) }
    ensures { IfSome result (λ f. (f.code ≡ 0) × (f.gap < quantity_top) × Double status × ((t : ℕ) → Counts t f (is_told f.status))
        × ((t : ℕ) → tells t f ≡ second_in kept_in status (t + gap) gap used first (drop (from + used) s.now))) }
{
    if !is_double(status) {
        return None;
    }
    let second = s[from + used];
    if STATUS <= second {
        return None;
    }
    Some(sent(status, first, second, used + 1, gap))
}

// The event at a place, where it is a message of two data bytes behind a gap of one byte, as most are: then the same as
// `event_at`, which is slower.
fn quick_at(s: &[u8], from: usize, running: u64) -> Option<Found>
    requires { from ≤ length s.now }
    ensures { IfSome result (λ f. (f.code ≡ 0) × (f.gap < quantity_top) × ((t : ℕ) → Counts t f (is_told f.status))
        × ((t : ℕ) → tells t f ≡ seen_in kept_in running t (drop from s.now))) }
{
    if s.len() - from < 4 {
        return None;
    }
    let gap = s[from];
    if STATUS <= gap {
        return None;
    }
    let x = s[from + 1];
    if x < STATUS {
        return quick_second(s, from, 2, gap as u64, running, x);
    }
    let first = s[from + 2];
    if STATUS <= first {
        return None;
    }
    quick_second(s, from, 3, gap as u64, x as u64, first)
}

// Whether something is kept of what stands at a place: of a channel's message, unless it is aftertouch.
fn is_kept(f: Found) -> bool
    ensures { (t : ℕ) → Counts t f result }
{
    let says = f.status / 16;
    f.sent & ((says == 8) | (says == 9) | (says == 11) | (says == 12) | (says == 14))
}

// Where a pass stands: the place, the running status and the time there, how many events were kept before it, and whether one
// of them is past the latest time.
#[derive(Clone, Copy)]
struct Cursor {
    at: usize,
    status: u64,
    time: u64,
    kept: usize,
    late: bool,
}

fn start() -> Cursor
    ensures { result ≡ record { at = 0; status = 0; time = 0; kept = 0; late = false } }
{
    Cursor {
        at: 0,
        status: 0,
        time: 0,
        kept: 0,
        late: false,
    }
}

// The pass behind what was found where it stands, and whether something is kept of that.
fn behind(c: Cursor, f: Found, kept: bool) -> Cursor
    requires { Counts c.time f kept × ((c.at + f.used < 18446744073709551616) × ((c.time + f.gap < 9223372036854775808) × (c.kept + 1 < 18446744073709551616))) }
    ensures { result ≡ moved c (tells c.time f) }
{
    let time = c.time + f.gap;
    Cursor {
        at: c.at + f.used,
        status: f.status,
        time: time,
        kept: c.kept + usize::from(kept),
        late: c.late | (kept & (LATEST < time)),
    }
}

// What the first pass knows of a body: the number, how many events are kept of it, and whether one of them is past the latest
// time.
#[derive(Clone, Copy)]
struct Outline {
    code: u32,
    kept: usize,
    late: bool,
}

// 0 at the end of track, or the fault.
fn number_of(code: u32) -> u32
    ensures { result ≡ cond (eqb code 1) 0 code }
{
    if code == 1 {
        return 0;
    }
    code
}

// Goes over a body up to its end of track or its first fault.
fn look_over(s: &[u8]) -> Outline
    requires { length s.now < length_top }
    ensures { result ≡ outlined (read_body kept_in s.now) }
{
    let mut c = start();
    loop {
        if let Some(q) = quick_at(s, c.at, c.status) {
            c = behind(c, q, is_told(q.status));
            continue;
        }
        let f = event_at(s, c.at, c.status);
        if f.code != 0 {
            return Outline {
                code: number_of(f.code),
                kept: c.kept,
                late: c.late,
            };
        }
        c = behind(c, f, is_kept(f));
    }
}

// Two data bytes as one number of fourteen bits, the low one first.
fn joined(low: u8, high: u8) -> u64
    ensures { (result ≡ low + 128 * high) × (result < 65536) }
{
    low as u64 + 128 * high as u64
}

// An event without data, on the channel of a status.
fn plain(kind: i64, time: u64, status: u64, v1: u64, v2: u8, v3: u8) -> Event
    requires { (time < 9223372036854775808) × (v1 < 65536) }
    ensures { result ≡ plain_event kind (pos time) (pos (status % 16)) (pos v1) (pos v2) (pos v3) }
{
    Event {
        kind: kind,
        time: time as i64,
        channel: (status % 16) as i64,
        v1: v1 as i64,
        v2: v2 as i64,
        v3: v3 as i64,
        offset: 0,
        len: 0,
    }
}

// A note that begins, or ends where it begins with no velocity.
fn note(f: Found, time: u64) -> Event
    requires { time < 9223372036854775808 }
    ensures { result ≡ plain_event (cond (eqb f.second 0) note_off note_on) (pos time) (pos (f.status % 16)) (pos f.first) (pos 0) (pos f.second) }
{
    if f.second == 0 {
        return plain(NOTE_OFF, time, f.status, f.first as u64, 0, 0);
    }
    plain(NOTE_ON, time, f.status, f.first as u64, 0, f.second)
}

// The event that a message tells at a time, where it is kept.
fn event_of(f: Found, time: u64) -> Event
    requires { time < 9223372036854775808 }
    ensures { kept_in f.status time f.first f.second ≡ take (length (kept_in f.status time f.first f.second)) (result ∷ []) }
{
    let says = f.status / 16;
    match says {
        8 => plain(NOTE_OFF, time, f.status, f.first as u64, 0, 0),
        9 => note(f, time),
        11 => plain(CONTROL_CHANGE, time, f.status, f.first as u64, f.second, 0),
        12 => plain(VOICE, time, f.status, f.first as u64, 0, 0),
        _ => plain(PITCH_BEND, time, f.status, joined(f.first, f.second), 0, 0),
    }
}

// Puts what is kept of what was found, if anything is, at a place of the list.
fn put(events: &mut [i64], i: usize, f: Found, time: u64, kept: bool)
    requires { Counts time f kept × ((time + f.gap < 9223372036854775808) × (i + length (tells time f).kept ≤ length (rows_of events.old))) }
    ensures { rows_of events.new ≡ laid i (tells time f).kept (rows_of events.old) }
{
    if kept {
        write_event(events, i, event_of(f, time + f.gap));
    }
}

// Puts the events of a body at the front of the list.
fn fill(s: &[u8], events: &mut [i64])
    requires { (length s.now < length_top) × (length (read_body kept_in s.now).kept ≤ length (rows_of events.old)) }
    ensures { rows_of events.new ≡ laid 0 (read_body kept_in s.now).kept (rows_of events.old) }
{
    let mut c = start();
    loop {
        if let Some(q) = quick_at(s, c.at, c.status) {
            let told = is_told(q.status);
            put(events, c.kept, q, c.time, told);
            c = behind(c, q, told);
            continue;
        }
        let f = event_at(s, c.at, c.status);
        if f.code != 0 {
            return;
        }
        put(events, c.kept, f, c.time, is_kept(f));
        c = behind(c, f, is_kept(f));
    }
}

// Whether the bytes are a chunk of a track, and as many as it says.
fn is_chunk(chunk: &[u8]) -> bool
    ensures { result ≡ is_chunk chunk.now }
{
    if chunk.len() < HEAD {
        return false;
    }
    let marked = (chunk[0] == b'M') & (chunk[1] == b'T') & (chunk[2] == b'r') & (chunk[3] == b'k');
    let body = u32::from_be_bytes([chunk[4], chunk[5], chunk[6], chunk[7]]) as usize;
    marked & (HEAD + body == chunk.len())
}

fn refuse(code: u32, count: usize) -> Taken
    ensures { result ≡ record { code = code; count = count } }
{
    Taken {
        code: code,
        count: count,
    }
}

// What is answered for a chunk and a list, before anything is put.
fn judge(chunk: &[u8], events: &[i64], count: usize) -> Taken
    ensures { result ≡ read_taken chunk.now events.now count }
{
    if !list_ok(events, count) {
        return refuse(1, count);
    }
    if !is_chunk(chunk) {
        return refuse(13, count);
    }
    let o = look_over(&chunk[HEAD..]);
    if o.code != 0 {
        return refuse(o.code, count);
    }
    if events.len() / WIDTH < o.kept {
        return refuse(7, count);
    }
    if o.late {
        return refuse(4, count);
    }
    Taken {
        code: 0,
        count: o.kept,
    }
}

// Reads a track chunk of Standard MIDI Files 1.0 into the list, which then holds the chunk's events in order and nothing else:
// NoteOn, NoteOff, controllers, programs and bends, with running status; Meta, system exclusive and aftertouch are stepped
// over, and their times count. A note's end is a NoteOff of velocity 0. Answers how many events the list has. Refuses 1; 13
// bytes that are no track chunk, or not as many as it says; 14 an event that is cut short or faulty; 15 no end of track, or
// bytes behind it; 7; 4 an event later than 2^42. Then the list is left as it is, and the count handed back.
pub fn read_chunk(chunk: &[u8], events: &mut [i64], count: usize) -> Taken
    ensures { (result ≡ read_taken chunk.now events.old count)
        × (events.new ≡ read_left chunk.now events.old count) }
{
    let answer = judge(chunk, events, count);
    if answer.code != 0 {
        return answer;
    }
    fill(&chunk[HEAD..], events);
    if answer.count < count {
        clear_from(events, answer.count, count);
    }
    answer
}
