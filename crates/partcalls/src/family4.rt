// Family 4: the note parameters. A call is handed the parameter that its first argument names, and the one that it
// hands back takes its place.
use desk::lists::{HANDED, list_in};
use desk::{Desk, param_of};
use params::{NoteParam, ParamAnswer, ParamValue, Told};
use reserved::OnCycleTime;
use script::answer::{Answer, Answers, Failure, accepted, done, one};
use script::args::{as_i32, as_u32, as_usize, front};

// The parameter that a call leaves in the place of parameter p.
fn put(desk: &mut Desk, p: usize, n: NoteParam) {
    if let Some(own) = desk.param_mut(p) {
        *own = n;
    }
}

// A call that answers a parameter alone.
fn left(desk: &mut Desk, p: usize, r: ParamAnswer) -> Answer {
    put(desk, p, r.param);
    done(r.code)
}

// The same with a value.
fn taken(desk: &mut Desk, p: usize, r: ParamValue) -> Answer {
    put(desk, p, r.param);
    one(r.code, i64::from(r.value))
}

// A value alone.
fn told(r: Told) -> Answer {
    one(r.code, i64::from(r.value))
}

// 401.
fn renew(desk: &mut Desk, p: usize) -> Answer {
    put(desk, p, NoteParam::new());
    Ok(Answers::None)
}

// 418.
fn cycle(start: i64, length: i64, timepos: i64, values: &[i32]) -> Answer {
    let made = OnCycleTime::new(start, as_i32(length), values);
    accepted(made.code)?;
    let c = made.cycle;
    match c.calc(timepos) {
        Ok(Some(v)) => Ok(Answers::Two(1, i64::from(v))),
        Ok(None) => Ok(Answers::Two(0, 0)),
        Err(refusal) => Err(Failure::from(refusal)),
    }
}

pub fn carry_out(op: i64, args: &[i64], desk: &mut Desk) -> Answer {
    let [first, a, b] = front::<3>(args);
    let p = as_usize(first);
    let x = as_i32(a);
    let y = as_i32(b);
    let n = *param_of(&desk.track, p);
    let mut room: [i32; HANDED] = [0; HANDED];
    desk.named = p;
    match op {
        401 => renew(desk, p),
        402 => left(desk, p, n.clear_reserve()),
        403 => told(n.has_reserve()),
        404 => left(desk, p, n.set_on_time(a, list_in(&mut room, args, 2))),
        405 => left(desk, p, n.set_on_cycle(a, list_in(&mut room, args, 2))),
        406 => left(desk, p, n.set_on_note(list_in(&mut room, args, 1))),
        407 => taken(desk, p, n.calc_on_time(a, y)),
        408 => taken(desk, p, n.calc_on_note(x)),
        409 => told(n.apply_limit(x)),
        410 => told(n.max_or(x)),
        411 => left(desk, p, n.set_random(x)),
        412 => left(desk, p, n.set_range(x, y)),
        413 => left(desk, p, n.clear_range()),
        414 => left(desk, p, n.set_delay(x)),
        415 => left(desk, p, n.set_max(x)),
        416 => left(desk, p, n.clear_max()),
        417 => left(desk, p, n.set_repeat(as_u32(a))),
        418 => cycle(first, a, b, list_in(&mut room, args, 3)),
        _ => Err(Failure::Unknown),
    }
}
