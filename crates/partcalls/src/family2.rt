// Family 2: leaves. Of the desk they use the budget.
use budget::{Budget, calc_rand_value, reserve_event, safe_iteration_limit};
use events::{Event, bytes_of, zero_event};
use numbers::{Refusal, ask, is_word, value_range};
use script::answer::{Answer, Answers, Failure, accepted};
use script::args::{as_u32, front};

// 202 on a budget of its own.
fn random(seed: i64, value: i64, width: i64) -> Answer {
    ask(is_word(value), Refusal::OutOfRange)?;
    ask(is_word(width), Refusal::OutOfRange)?;
    let r = calc_rand_value(Budget::new(as_u32(seed), 0).budget, value, width);
    Ok(Answers::Two(r.value, i64::from(r.budget.seed)))
}

// 203: an event of a kind and a length of data.
fn reserve(b: &mut Budget, kind: i64, len: i64) -> Answer {
    let e = Event {
        kind,
        len,
        ..zero_event()
    };
    let size = u32::try_from(bytes_of(e)).map_err(|_| Refusal::OutOfRange)?;
    let r = reserve_event(*b, size);
    *b = r.budget;
    Ok(Answers::One(i64::from(r.fits)))
}

// 205: a new budget in the desk's place.
fn renew(b: &mut Budget, seed: i64, maximum: i64) -> Answer {
    let made = Budget::new(as_u32(seed), as_u32(maximum));
    accepted(made.code)?;
    *b = made.budget;
    Ok(Answers::None)
}

pub fn carry_out(op: i64, args: &[i64], b: &mut Budget) -> Answer {
    let [x, y, z] = front::<3>(args);
    match op {
        201 => Ok(Answers::One(value_range(x, y, z))),
        202 => random(x, y, z),
        203 => reserve(b, x, y),
        204 => Ok(Answers::One(i64::from(safe_iteration_limit(*b)))),
        205 => renew(b, x, y),
        _ => Err(Failure::Unknown),
    }
}
