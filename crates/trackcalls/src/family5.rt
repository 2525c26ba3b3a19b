// Family 5: the track's parameters at a note, its velocity layers, and what is set of its parameters.
use desk::Desk;
use desk::lists::{HANDED, list_in};
use playing::{
    TrackValue, TrackVelocity, apply_v_sub, calc_l_on_note, calc_l_on_time, calc_o_on_note,
    calc_o_on_time, calc_qlen_on_note, calc_qlen_on_time, calc_t_on_note, calc_t_on_time,
    calc_v_on_note, calc_v_on_time, clear_param_max, clear_param_range, clear_param_reserve,
    set_param_delay, set_param_max, set_param_on_cycle, set_param_on_note, set_param_on_time,
    set_param_random, set_param_range, set_param_repeat, set_v_sub, set_v_sub_on_cycle,
    set_v_sub_on_note, set_v_sub_on_time, set_v_sub_random,
};
use script::answer::{Answer, Failure, one};
use script::args::{as_i32, as_u32, as_usize, front};

// A note's value, and the track that is left.
fn taken(desk: &mut Desk, r: TrackValue) -> Answer {
    desk.track = r.track;
    one(r.code, i64::from(r.value))
}

// The same of a velocity.
fn summed(desk: &mut Desk, r: TrackVelocity) -> Answer {
    desk.track = r.track;
    one(r.code, r.value)
}

// 513 to 515 of a layer, 517 to 519 of a parameter have a list.
pub fn carry_out(op: i64, args: &[i64], desk: &mut Desk) -> Answer {
    let [a, b, c] = front::<3>(args);
    let def = as_i32(a);
    let layer = as_usize(a);
    let which = as_u32(a);
    let x = as_i32(b);
    let y = as_i32(c);
    let track = desk.track;
    let mut room: [i32; HANDED] = [0; HANDED];
    let list = list_in(&mut room, args, 1);
    match op {
        501 => taken(desk, calc_v_on_time(track, def)),
        502 => taken(desk, calc_v_on_note(track, def)),
        503 => taken(desk, calc_t_on_time(track, def)),
        504 => taken(desk, calc_t_on_note(track, def)),
        505 => taken(desk, calc_qlen_on_time(track, def)),
        506 => taken(desk, calc_qlen_on_note(track, def)),
        507 => taken(desk, calc_o_on_time(track, def)),
        508 => taken(desk, calc_o_on_note(track, def)),
        509 => taken(desk, calc_l_on_time(track, def)),
        510 => taken(desk, calc_l_on_note(track, def)),
        511 => desk.keep(set_v_sub(track, layer, x)),
        512 => desk.keep(set_v_sub_random(track, layer, x)),
        513 => desk.keep(set_v_sub_on_time(track, layer, list)),
        514 => desk.keep(set_v_sub_on_cycle(track, layer, list)),
        515 => desk.keep(set_v_sub_on_note(track, layer, list)),
        516 => summed(desk, apply_v_sub(track, def)),
        517 => desk.keep(set_param_on_time(track, which, list)),
        518 => desk.keep(set_param_on_cycle(track, which, list)),
        519 => desk.keep(set_param_on_note(track, which, list)),
        520 => desk.keep(clear_param_reserve(track, which)),
        521 => desk.keep(set_param_random(track, which, x)),
        522 => desk.keep(set_param_range(track, which, x, y)),
        523 => desk.keep(clear_param_range(track, which)),
        524 => desk.keep(set_param_delay(track, which, x)),
        525 => desk.keep(set_param_max(track, which, x)),
        526 => desk.keep(clear_param_max(track, which)),
        527 => desk.keep(set_param_repeat(track, which, as_u32(b))),
        _ => Err(Failure::Unknown),
    }
}
