// Family 1: constructors and sizes of events. The desk stays as it is.
use crate::record::{event_of, numbers_of};
use events::{Event, Made};
use script::answer::{Answer, Failure, accepted, one};
use script::args::{counted, front};

// An event's eight numbers, or the refusal.
fn made(m: Made) -> Answer {
    accepted(m.code)?;
    Ok(numbers_of(m.event))
}

pub fn carry_out(op: i64, args: &[i64], store: &[u8]) -> Answer {
    let [a, b, c, d, e, f] = front::<6>(args);
    match op {
        101 => made(Event::note(a, b, c, d, e)),
        102 => made(Event::voice(a, b, c)),
        103 => made(Event::meta(a, b, c, d, e, f, store)),
        104 => made(Event::direct_smf(a, b, c, store)),
        105 => made(Event::sysex_raw(a, b, c, store)),
        106 => made(Event::cc(a, b, c, d)),
        107 => made(Event::pitch_bend(a, b, c)),
        108 => made(Event::pitch_bend_range(a, b, c)),
        109 => {
            let size = event_of(args).estimated_midi_bytes(store);
            one(size.code, counted(size.bytes))
        }
        _ => Err(Failure::Unknown),
    }
}
