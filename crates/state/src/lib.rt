// A track: one record of numbers by value, and the test that every public call makes of it. The events are not in it, nor are
// the cycles, whose table the caller lends; the track only counts how many records of that table are used. A call that
// refuses hands back the track that it was given.
#![tactic(auto)]

ghost use Rattle.std.specs.Prelude.{◌≡◌, ◌&&◌, ◌≤◌};
ghost use Rattle.numbers.specs.Limits.{places};
ghost use Rattle.layers.specs.Layers.{ok_layers};
ghost use Rattle.tables.specs.Tables.{ok_cycles, lone};
ghost use Rattle.state.specs.Track.{no_notes, no_waves, no_sines, no_cycles, new_track, cycles_of};
ghost use Rattle.state.specs.Tests.{playable, ok_params, ok_options, ok_tables, ok_track};
ghost use Rattle.state.specs.Calls.{on_channel, new_of, set_timepos, set_channel, set_cc_freq, set_pb_freq};

pub use cycles::OPTIONS;
use cycles::{Cycle, PLACES};
use layers::{Layers, layer_ok, layers_ok};
use numbers::{Refusal, ask, channel_ok, code_of, is_length, is_number, is_time, is_timebase};
use params::{NoteParam, param_ok};
use tables::{
    CycleTable, NoteTable, OnNoteSine, OnNoteValues, OnNoteWave, Reservation, SineTable, WaveTable,
    lone_ok, stored_ok,
};
use values::{WriteOption, option_ok};

// `ccfreq` and `pbfreq` are the Rust's `cc_on_time_freq` and `pb_on_time_freq`, `step` its `qlen_is_step`, 0 or 1; v, q, t, o, l are the note
// parameters of velocity, gate, timing, octave and length. `cycles` counts the records of the lent cycle table.
#[repr(C)]
#[derive(Clone, Copy)]
pub struct Track {
    pub timebase: i32,
    pub timepos: i64,
    pub channel: i32,
    pub ccfreq: i32,
    pub pbfreq: i32,
    pub velocity: i32,
    pub timing: i32,
    pub octave: i32,
    pub qlen: i32,
    pub step: u32,
    pub v: NoteParam,
    pub q: NoteParam,
    pub t: NoteParam,
    pub o: NoteParam,
    pub l: NoteParam,
    pub layers: Layers,
    pub options: [WriteOption; OPTIONS],
    pub notes: NoteTable,
    pub waves: WaveTable,
    pub sines: SineTable,
    pub cycles: usize,
}

// The track as a call leaves it.
#[repr(C)]
#[derive(Clone, Copy)]
pub struct TrackAnswer {
    pub code: u32, // a number beside what it goes with: C reads this record
    pub track: Track,
}

// Tables in which nothing is reserved.
pub fn no_notes() -> NoteTable
    ensures { result ≡ no_notes }
{
    let e = OnNoteValues::blank();
    NoteTable {
        count: 0,
        items: [e; PLACES],
    }
}

pub fn no_waves() -> WaveTable
    ensures { result ≡ no_waves }
{
    let e = OnNoteWave::blank();
    WaveTable {
        count: 0,
        items: [e; PLACES],
    }
}

pub fn no_sines() -> SineTable
    ensures { result ≡ no_sines }
{
    let e = OnNoteSine::blank();
    SineTable {
        count: 0,
        items: [e; PLACES],
    }
}

pub fn no_cycles() -> CycleTable
    ensures { result ≡ no_cycles }
{
    let e = Cycle::none();
    CycleTable {
        count: 0,
        items: [e; PLACES],
    }
}

// Whether the numbers that stand in a track alone are in their ranges. It is handed the numbers, and `params_ok` the parameters: the
// track itself would be copied once more.
fn play_ok(
    timebase: i32,
    timepos: i64,
    channel: i32,
    ccfreq: i32,
    pbfreq: i32,
    velocity: i32,
    timing: i32,
    octave: i32,
    qlen: i32,
    step: u32,
) -> bool
    ensures { result ≡ playable timebase timepos channel ccfreq pbfreq velocity timing octave qlen step }
{
    is_timebase(timebase)
        & is_time(timepos)
        & channel_ok(channel)
        & is_length(ccfreq)
        & is_length(pbfreq)
        & is_number(velocity)
        & is_number(timing)
        & is_number(octave)
        & is_number(qlen)
        & (step <= 1)
}

#[tactic(auto, unfolding(crate::specs::Tests::ok_params))]
fn params_ok(v: NoteParam, q: NoteParam, t: NoteParam, o: NoteParam, l: NoteParam) -> bool
    ensures { result ≡ ok_params v q t o l }
{
    param_ok(v) & param_ok(q) & param_ok(t) & param_ok(o) & param_ok(l)
}

// The test of layers of which one counts.
fn one_layer_ok(layers: Layers) -> bool
    requires { layers.count ≡ 1 }
    ensures { result ≡ ok_layers layers }
{
    layer_ok(layers.items[0])
}

// Whether there are 1 to 16 layers, every number of which is in its range. Most tracks have one, which is read from its place: the
// compiled code then copies no other. They are a local first, as the options are in `track_ok`.
fn own_layers_ok(track: Track) -> bool
    ensures { result ≡ ok_layers track.layers }
{
    if track.layers.count == 1 {
        let one = track.layers;
        one_layer_ok(one)
    } else {
        let layers = track.layers;
        layers_ok(layers)
    }
}

fn options_ok(options: [WriteOption; OPTIONS]) -> bool
    ensures { result ≡ ok_options options }
{
    // Each by value: an iterator over them would have the compiled code copy them all first.
    for i in 0..OPTIONS {
        if !option_ok(options[i]) {
            return false;
        }
    }
    true
}

// Whether the tables may be stored, and no target has two reservations in them; cycles are not asked here.
fn tables_ok(notes: NoteTable, waves: WaveTable, sines: SineTable) -> bool
    ensures { result ≡ ok_tables notes waves sines }
{
    stored_ok(notes, waves, sines)
}

// Whether every number of a track is in its range. A call that is lent the cycle table tests that besides, and that no
// target of it is reserved here too. The options are a local first: handed on from
// their place in the track, they would have the compiled code copy the whole of it.
pub fn track_ok(track: Track) -> bool
    ensures { result ≡ ok_track track }
{
    let options = track.options;
    play_ok(
        track.timebase,
        track.timepos,
        track.channel,
        track.ccfreq,
        track.pbfreq,
        track.velocity,
        track.timing,
        track.octave,
        track.qlen,
        track.step,
    ) & params_ok(track.v, track.q, track.t, track.o, track.l)
        & own_layers_ok(track)
        & options_ok(options)
        & tables_ok(track.notes, track.waves, track.sines)
        & (track.cycles <= PLACES)
}

// A track's cycles: of the sixteen records that are lent, as many as the track counts.
pub fn cycles_of(track: Track, cycles: [Cycle; PLACES]) -> CycleTable
    ensures { result ≡ cycles_of track cycles }
{
    CycleTable {
        count: track.cycles,
        items: cycles,
    }
}

// What a call asks of a track's tables and its cycles, once the track has passed its own test: each cycle may be stored, and no target
// has two reservations over all four kinds. It is handed the tables and not the track: handed the track, the compiled code would copy it
// once more.
pub fn lent_alone(notes: NoteTable, waves: WaveTable, sines: SineTable, own: CycleTable) -> bool
    requires { (notes.count ≤ places) × (waves.count ≤ places) × (sines.count ≤ places) }
    ensures { result ≡ ok_cycles own && lone notes waves sines own }
{
    own.is_ok() && lone_ok(notes, waves, sines, own)
}

// A channel for a new track: 0 to 15, whatever is asked.
fn clamped(channel: i32) -> i32
    ensures { result ≡ on_channel channel }
{
    channel.clamp(0, 15)
}

// A track at time 0 with nothing set.
#[tactic(auto, unfolding(crate::specs::Track::new_track))]
fn blank(timebase: i32, channel: i32) -> Track
    ensures { result ≡ new_track timebase channel }
{
    let param = NoteParam::new();
    Track {
        timebase,
        timepos: 0,
        channel,
        ccfreq: 4,
        pbfreq: 0,
        velocity: 100,
        timing: 0,
        octave: 5,
        qlen: 90,
        step: 0,
        v: param,
        q: param,
        t: param,
        o: param,
        l: param,
        layers: Layers::new(),
        options: [WriteOption::new(); OPTIONS],
        notes: no_notes(),
        waves: no_waves(),
        sines: no_sines(),
        cycles: 0,
    }
}

impl Track {
    // A track at time 0 with nothing set; the channel is clamped to 0..15. Refuses 4, and then hands back a track of
    // timebase 0, which no call takes.
    pub fn new(timebase: i32, channel: i32) -> TrackAnswer
        ensures { result ≡ new_of timebase channel }
    {
        if is_timebase(timebase) {
            TrackAnswer {
                code: 0,
                track: blank(timebase, clamped(channel)),
            }
        } else {
            TrackAnswer {
                code: Refusal::OutOfRange.number(),
                track: blank(0, 0),
            }
        }
    }
}

// Where the track stands: the time of what is written next. Refuses 4.
pub fn set_timepos(mut track: Track, timepos: i64) -> TrackAnswer
    ensures { result ≡ set_timepos track timepos }
{
    let asked = ask(track_ok(track) & is_time(timepos), Refusal::OutOfRange);
    if asked.is_ok() {
        track.timepos = timepos;
    }
    TrackAnswer {
        code: code_of(asked),
        track,
    }
}

// The channel of what is written next; outside 0..15 it is not clamped here. Refuses 4.
pub fn set_channel(mut track: Track, channel: i32) -> TrackAnswer
    ensures { result ≡ set_channel track channel }
{
    let asked = ask(track_ok(track) & channel_ok(channel), Refusal::OutOfRange);
    if asked.is_ok() {
        track.channel = channel;
    }
    TrackAnswer {
        code: code_of(asked),
        track,
    }
}

// How many steps apart a controller's curve is written. Refuses 4.
pub fn set_cc_on_time_freq(mut track: Track, freq: i32) -> TrackAnswer
    ensures { result ≡ set_cc_freq track freq }
{
    let asked = ask(track_ok(track) & is_length(freq), Refusal::OutOfRange);
    if asked.is_ok() {
        track.ccfreq = freq;
    }
    TrackAnswer {
        code: code_of(asked),
        track,
    }
}

// The same of a bend's curve. Refuses 4.
pub fn set_pb_on_time_freq(mut track: Track, freq: i32) -> TrackAnswer
    ensures { result ≡ set_pb_freq track freq }
{
    let asked = ask(track_ok(track) & is_length(freq), Refusal::OutOfRange);
    if asked.is_ok() {
        track.pbfreq = freq;
    }
    TrackAnswer {
        code: code_of(asked),
        track,
    }
}
