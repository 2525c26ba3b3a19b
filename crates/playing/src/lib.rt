// What a track's notes take of its parameters and of its velocity layers, and what is set for them. Each call hands the part that it
// is about to that part's own call, and then asks the whole track: `asked` puts that test in number 4's place. Refused, the
// track is the one that was given.
#![tactic(auto)]

ghost use Rattle.std.specs.Prelude.{◌≡◌, cond};
ghost use Rattle.params.specs.Calls.{clear_reserve, set_on_time, set_on_cycle, set_on_note, set_random, set_range, clear_range, set_delay, set_max, clear_max, set_repeat};
ghost use Rattle.layers.specs.Calls.{set_v_sub, set_v_sub_random, set_v_sub_on_time, set_v_sub_on_cycle, set_v_sub_on_note, apply_v_sub};
ghost use Rattle.playing.specs.Which.{velocity, gate, timing, octave, span, param_of, with_param};
ghost use Rattle.playing.specs.Settled.{settled, listed};
ghost use Rattle.playing.specs.Calls.{asked, on_param, on_layers, time_taken, summed_up, value_on_time, value_on_note};

use layers::{LayersAnswer, Velocity};
use numbers::Refusal;
use params::{NoteParam, ParamAnswer, ParamValue};
use reserved::ON_NOTE;
use state::{Track, TrackAnswer, track_ok};

// The note parameters by number: velocity, gate, timing, octave, length.
pub const V: u32 = 0;

pub const Q: u32 = 1;

pub const T: u32 = 2;

pub const O: u32 = 3;

pub const L: u32 = 4;

// A note's value, and the track as the call leaves it.
#[repr(C)]
#[derive(Clone, Copy)]
pub struct TrackValue {
    pub code: u32, // a number beside what it goes with: C reads this record
    pub value: i32,
    pub track: Track,
}

// The same of a velocity with all layers added, which may be wider.
#[repr(C)]
#[derive(Clone, Copy)]
pub struct TrackVelocity {
    pub code: u32, // a number beside what it goes with: C reads this record
    pub value: i64,
    pub track: Track,
}

// A parameter by its number. An enum of the five would not do: any other number asks the length's own call, whose 3 comes before the 4
// that the number is refused with.
fn param_at(track: Track, which: u32) -> NoteParam
    ensures { result ≡ param_of which track }
{
    match which {
        V => track.v,
        Q => track.q,
        T => track.t,
        O => track.o,
        _ => track.l,
    }
}

// Puts a parameter in its place.
fn put_param(track: &mut Track, which: u32, param: NoteParam)
    ensures { track.new ≡ with_param which track.old param }
{
    match which {
        V => track.v = param,
        Q => track.q = param,
        T => track.t = param,
        O => track.o = param,
        _ => track.l = param,
    }
}

// What a part's call answers, with the test of the whole track in 4's place: 3 comes before it, 5 after it. It stays a number: the
// answers of the parts and of the track carry it as C reads it, and a Result would be read off the one and told to the other.
fn asked(ok: bool, code: u32) -> u32
    ensures { result ≡ asked ok code }
{
    if code == Refusal::TooMany.number() || ok {
        code
    } else {
        Refusal::OutOfRange.number()
    }
}

// The track with a parameter as its own call leaves it.
fn param_set(mut track: Track, which: u32, after: ParamAnswer) -> TrackAnswer
    ensures { result ≡ on_param which track after }
{
    let code = asked(track_ok(track) & (which <= L), after.code);
    if code == 0 {
        put_param(&mut track, which, after.param);
    }
    TrackAnswer { code, track }
}

// The track with its layers as their own call leaves them.
fn layers_set(mut track: Track, after: LayersAnswer) -> TrackAnswer
    ensures { result ≡ on_layers track after }
{
    let code = asked(track_ok(track), after.code);
    if code == 0 {
        track.layers = after.layers;
    }
    TrackAnswer { code, track }
}

// The track with what a note took of a curve or a cycle gone from its parameter.
fn time_taken(mut track: Track, which: u32, taken: ParamValue) -> TrackValue
    ensures { result ≡ time_taken which track taken }
{
    let code = asked(track_ok(track) & (which <= L), taken.code);
    if code != 0 {
        return TrackValue {
            code,
            value: 0,
            track,
        };
    }
    put_param(&mut track, which, taken.param);
    TrackValue {
        code: 0,
        value: taken.value,
        track,
    }
}

// What a parameter's call leaves, with the test of the whole track in 4's place: refused, the parameter is the track's own.
// Each call on a note's list puts it into the track field by field: one function of the number for all five, the track handed on
// by value, was tried, and the compiled code kept five copies of the track.
fn settled(ok: bool, taken: ParamValue, own: NoteParam) -> ParamValue
    ensures { result ≡ settled ok taken own }
{
    let code = asked(ok, taken.code);
    if code != 0 {
        ParamValue {
            code,
            value: 0,
            param: own,
        }
    } else {
        ParamValue { code, ..taken }
    }
}

// Whether a note's value is the track's own: it was taken of a list that is still there.
fn is_listed(left: ParamValue) -> bool
    ensures { result ≡ listed left }
{
    (left.code == 0) & (left.param.reserve.kind == ON_NOTE)
}

fn value_on_time(track: Track, which: u32, def: i32) -> TrackValue
    ensures { result ≡ value_on_time which track def }
{
    time_taken(
        track,
        which,
        param_at(track, which).calc_on_time(track.timepos, def),
    )
}

// A note's velocity at the track's time, of the curve or cycle that is reserved, or the default; a curve that is over goes.
// Refuses 4.
pub fn calc_v_on_time(track: Track, def: i32) -> TrackValue
    ensures { result ≡ value_on_time velocity track def }
{
    value_on_time(track, V, def)
}

// The same of a note's timing. Refuses 4.
pub fn calc_t_on_time(track: Track, def: i32) -> TrackValue
    ensures { result ≡ value_on_time timing track def }
{
    value_on_time(track, T, def)
}

// The same of a note's gate. Refuses 4.
pub fn calc_qlen_on_time(track: Track, def: i32) -> TrackValue
    ensures { result ≡ value_on_time gate track def }
{
    value_on_time(track, Q, def)
}

// The same of a note's octave. Refuses 4.
pub fn calc_o_on_time(track: Track, def: i32) -> TrackValue
    ensures { result ≡ value_on_time octave track def }
{
    value_on_time(track, O, def)
}

// The same of a note's length. Refuses 4.
pub fn calc_l_on_time(track: Track, def: i32) -> TrackValue
    ensures { result ≡ value_on_time span track def }
{
    value_on_time(track, L, def)
}

// A note's velocity, the next of the list that is reserved, or the default; a list that is spent goes. While the list is there,
// the value is the track's velocity too. Refuses 4.
pub fn calc_v_on_note(mut track: Track, def: i32) -> TrackValue
    ensures { result ≡ value_on_note velocity track def }
{
    let left = settled(track_ok(track), track.v.calc_on_note(def), track.v);
    track.v = left.param;
    if is_listed(left) {
        track.velocity = left.value;
    }
    TrackValue {
        code: left.code,
        value: left.value,
        track,
    }
}

// The same of a note's timing. Refuses 4.
pub fn calc_t_on_note(mut track: Track, def: i32) -> TrackValue
    ensures { result ≡ value_on_note timing track def }
{
    let left = settled(track_ok(track), track.t.calc_on_note(def), track.t);
    track.t = left.param;
    if is_listed(left) {
        track.timing = left.value;
    }
    TrackValue {
        code: left.code,
        value: left.value,
        track,
    }
}

// The same of a note's gate, which is no longer one in steps then. Refuses 4.
pub fn calc_qlen_on_note(mut track: Track, def: i32) -> TrackValue
    ensures { result ≡ value_on_note gate track def }
{
    let left = settled(track_ok(track), track.q.calc_on_note(def), track.q);
    track.q = left.param;
    if is_listed(left) {
        track.qlen = left.value;
        track.step = 0;
    }
    TrackValue {
        code: left.code,
        value: left.value,
        track,
    }
}

// The same of a note's octave. Refuses 4.
pub fn calc_o_on_note(mut track: Track, def: i32) -> TrackValue
    ensures { result ≡ value_on_note octave track def }
{
    let left = settled(track_ok(track), track.o.calc_on_note(def), track.o);
    track.o = left.param;
    if is_listed(left) {
        track.octave = left.value;
    }
    TrackValue {
        code: left.code,
        value: left.value,
        track,
    }
}

// The same of a note's length, which the track does not keep. Refuses 4.
pub fn calc_l_on_note(mut track: Track, def: i32) -> TrackValue
    ensures { result ≡ value_on_note span track def }
{
    let left = settled(track_ok(track), track.l.calc_on_note(def), track.l);
    track.l = left.param;
    TrackValue {
        code: left.code,
        value: left.value,
        track,
    }
}

// A layer's value; nothing stays reserved for it. Refuses 4, 5.
pub fn set_v_sub(track: Track, index: usize, velocity: i32) -> TrackAnswer
    ensures { result ≡ on_layers track (set_v_sub track.layers index velocity) }
{
    layers_set(track, track.layers.set_v_sub(index, velocity))
}

// A layer's random width. Refuses 4, 5.
pub fn set_v_sub_random(track: Track, index: usize, random: i32) -> TrackAnswer
    ensures { result ≡ on_layers track (set_v_sub_random track.layers index random) }
{
    layers_set(track, track.layers.set_v_sub_random(index, random))
}

// Reserves a curve for a layer, from the track's time and the velocity parameter's delay on. Refuses 3, 4, 5.
pub fn set_v_sub_on_time(track: Track, index: usize, values: &[i32]) -> TrackAnswer
    ensures { result ≡ on_layers track (set_v_sub_on_time track.layers index track.timepos track.v.delay values.now) }
{
    layers_set(
        track,
        track
            .layers
            .set_v_sub_on_time(index, track.timepos, track.v.delay, values),
    )
}

// Reserves a cycle for a layer, its length and then its values; nothing, where there is no value. Refuses 3, 4, 5.
pub fn set_v_sub_on_cycle(track: Track, index: usize, args: &[i32]) -> TrackAnswer
    ensures { result ≡ on_layers track (set_v_sub_on_cycle track.layers index track.timepos track.v.delay args.now) }
{
    layers_set(
        track,
        track
            .layers
            .set_v_sub_on_cycle(index, track.timepos, track.v.delay, args),
    )
}

// Reserves a value of a layer for each of the next notes, round and round where the velocity parameter's repeat stands.
// Refuses 3, 4, 5.
pub fn set_v_sub_on_note(track: Track, index: usize, values: &[i32]) -> TrackAnswer
    ensures { result ≡ on_layers track (set_v_sub_on_note track.layers index track.v.repeat values.now) }
{
    layers_set(
        track,
        track
            .layers
            .set_v_sub_on_note(index, track.v.repeat, values),
    )
}

// The track with its layers advanced by a note.
fn summed_up(mut track: Track, sum: Velocity) -> TrackVelocity
    ensures { result ≡ summed_up track sum }
{
    let code = asked(track_ok(track), sum.code);
    if code != 0 {
        return TrackVelocity {
            code,
            value: 0,
            track,
        };
    }
    track.layers = sum.layers;
    TrackVelocity {
        code: 0,
        value: sum.value,
        track,
    }
}

// A note's velocity at the track's time: the given one and what every layer adds to it. The layers come back advanced. Refuses 4.
pub fn apply_v_sub(track: Track, velocity: i32) -> TrackVelocity
    ensures { result ≡ summed_up track (apply_v_sub track.layers track.timepos velocity) }
{
    summed_up(track, track.layers.apply_v_sub(track.timepos, velocity))
}

// The setters of a parameter, `which` by its number; any other number refuses 4.
//
// Reserves a curve, low, high and length by threes, from the track's time and the parameter's delay on. Refuses 3, 4.
pub fn set_param_on_time(track: Track, which: u32, values: &[i32]) -> TrackAnswer
    ensures { result ≡ on_param which track (set_on_time (param_of which track) track.timepos values.now) }
{
    param_set(
        track,
        which,
        param_at(track, which).set_on_time(track.timepos, values),
    )
}

// Reserves a cycle, its length and then its values, from there on; nothing, where there is no value. Refuses 3, 4.
pub fn set_param_on_cycle(track: Track, which: u32, args: &[i32]) -> TrackAnswer
    ensures { result ≡ on_param which track (set_on_cycle (param_of which track) track.timepos args.now) }
{
    param_set(
        track,
        which,
        param_at(track, which).set_on_cycle(track.timepos, args),
    )
}

// Reserves a value for each of the next notes, round and round where repeat stands. Refuses 3, 4.
pub fn set_param_on_note(track: Track, which: u32, values: &[i32]) -> TrackAnswer
    ensures { result ≡ on_param which track (set_on_note (param_of which track) values.now) }
{
    param_set(track, which, param_at(track, which).set_on_note(values))
}

// Nothing stays reserved. Refuses 4.
pub fn clear_param_reserve(track: Track, which: u32) -> TrackAnswer
    ensures { result ≡ on_param which track (clear_reserve (param_of which track)) }
{
    param_set(track, which, param_at(track, which).clear_reserve())
}

// The random width of a value. Refuses 4.
pub fn set_param_random(track: Track, which: u32, random: i32) -> TrackAnswer
    ensures { result ≡ on_param which track (set_random (param_of which track) random) }
{
    param_set(track, which, param_at(track, which).set_random(random))
}

// The range of a value. Refuses 4.
pub fn set_param_range(track: Track, which: u32, low: i32, high: i32) -> TrackAnswer
    ensures { result ≡ on_param which track (set_range (param_of which track) low high) }
{
    param_set(track, which, param_at(track, which).set_range(low, high))
}

// No range. Refuses 4.
pub fn clear_param_range(track: Track, which: u32) -> TrackAnswer
    ensures { result ≡ on_param which track (clear_range (param_of which track)) }
{
    param_set(track, which, param_at(track, which).clear_range())
}

// The delay of what is reserved from now on. Refuses 4.
pub fn set_param_delay(track: Track, which: u32, delay: i32) -> TrackAnswer
    ensures { result ≡ on_param which track (set_delay (param_of which track) delay) }
{
    param_set(track, which, param_at(track, which).set_delay(delay))
}

// The maximum of a value. Refuses 4.
pub fn set_param_max(track: Track, which: u32, max: i32) -> TrackAnswer
    ensures { result ≡ on_param which track (set_max (param_of which track) max) }
{
    param_set(track, which, param_at(track, which).set_max(max))
}

// No maximum. Refuses 4.
pub fn clear_param_max(track: Track, which: u32) -> TrackAnswer
    ensures { result ≡ on_param which track (clear_max (param_of which track)) }
{
    param_set(track, which, param_at(track, which).clear_max())
}

// Whether a list that is reserved from now on goes round: 0 or 1. Refuses 4.
pub fn set_param_repeat(track: Track, which: u32, repeat: u32) -> TrackAnswer
    ensures { result ≡ on_param which track (set_repeat (param_of which track) repeat) }
{
    param_set(track, which, param_at(track, which).set_repeat(repeat))
}
