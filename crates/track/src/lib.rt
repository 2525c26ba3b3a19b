// Every call of the port that a product makes, in one crate: the track and its calls, the event list's, and the records
// that they are handed. What stands here besides is the controller's value of a track. None has a `requires`; each
// tests what it reads of what it is handed, answers a number of document 01's table, and changes nothing where that is not 0.
#![tactic(auto)]

ghost use Rattle.std.specs.Prelude.{◌≡◌, length};
ghost use Rattle.track.specs.Reading.{cc_of_track};

pub mod lent;

// ---- the track, its own numbers, its parameters and layers
pub use playing::{
    L, O, Q, T, TrackValue, TrackVelocity, V, apply_v_sub, calc_l_on_note, calc_l_on_time,
    calc_o_on_note, calc_o_on_time, calc_qlen_on_note, calc_qlen_on_time, calc_t_on_note,
    calc_t_on_time, calc_v_on_note, calc_v_on_time, clear_param_max, clear_param_range,
    clear_param_reserve, set_param_delay, set_param_max, set_param_on_cycle, set_param_on_note,
    set_param_on_time, set_param_random, set_param_range, set_param_repeat, set_v_sub,
    set_v_sub_on_cycle, set_v_sub_on_note, set_v_sub_on_time, set_v_sub_random,
};
pub use state::{
    Track, TrackAnswer, set_cc_on_time_freq, set_channel, set_pb_on_time_freq, set_timepos,
};

// ---- a target's option
pub use drawing::{
    OptionAnswer, clear_range, get_write_opt, set_delay, set_random, set_range, set_repeat,
};
pub use values::WriteOption;

// ---- what is reserved for a target's notes and times
pub use reserving::{
    Kept, remove_cc_on, remove_cc_on_note, remove_cc_on_note_wave, remove_pb_on_note_wave,
    remove_reserve, set_cc_on_note, set_cc_on_note_wave, set_on_cycle, set_on_note,
    set_on_note_sine, set_on_note_wave, set_pb_on_note_wave,
};
pub use tables::{OnNoteSine, SineAnswer};

// ---- what is written at the track's time, at its notes and at its cycles'
pub use cycling::{Cycled, write_cc_on_cycle};
pub use drawing::{write_cc_on_time, write_on_time, write_pb_on_time, write_sine};
pub use noting::{Noted, write_cc_on_note};
pub use waving::write_cc_on_note_wave;
pub use writing::Outcome;

// ---- the event list
pub use chunks::{Chunk, write_chunk};
pub use cutting::{CcValue, full_cut, play_from};
pub use eventlist::{Taken, remove_pitch_bend_in_range};
pub use notes::{normalize, split_note_off};
pub use profile::{ProfileAnswer, check_profile, fit_profile};
pub use reader::read_chunk;
pub use sorting::events_sort;

// ---- a number in a range, and why a call refuses
pub use numbers::{Refusal, value_range};

// ---- records of their own, with their methods
pub use budget::{Budget, BudgetAnswer};
pub use counted::Numbers;
pub use cycles::Cycle;
pub use events::{Event, Made, Size};
pub use layers::Layers;
pub use params::{NoteParam, ParamAnswer, ParamValue, Told};
pub use reserved::{CycleTimeAnswer, OnCycleTime};
pub use sines::SineType;
use state::track_ok;

// The value of controller `number` on the track's channel at its time: that of the last such event in list order at or
// before it, or the controller's default. Refuses 1, 2, 4.
pub fn current_cc_value(
    track: Track,
    number: i32,
    events: &[i64],
    count: usize,
    store: &[u8],
) -> CcValue
    ensures { result ≡ cc_of_track (length store.now) track number events.now count }
{
    let channel = i64::from(track.channel);
    let wide = i64::from(number);
    let r = cutting::current_cc_value(channel, track.timepos, wide, events, count, store);
    if r.code != 0 {
        return r;
    }
    if !track_ok(track) {
        return CcValue {
            code: Refusal::OutOfRange.number(),
            value: 0,
        };
    }
    r
}
