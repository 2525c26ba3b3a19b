// Family 8: a new track, and the numbers of a track that a caller sets.
use desk::Desk;
use script::answer::{Answer, Failure};
use script::args::{as_i32, front};
use state::{set_cc_on_time_freq, set_channel, set_pb_on_time_freq, set_timepos};

pub fn carry_out(op: i64, args: &[i64], desk: &mut Desk) -> Answer {
    let [a, b] = front::<2>(args);
    let x = as_i32(a);
    let track = desk.track;
    match op {
        801 => desk.begin_track(x, as_i32(b)),
        802 => desk.keep(set_timepos(track, a)),
        803 => desk.keep(set_channel(track, x)),
        804 => desk.keep(set_cc_on_time_freq(track, x)),
        805 => desk.keep(set_pb_on_time_freq(track, x)),
        _ => Err(Failure::Unknown),
    }
}
