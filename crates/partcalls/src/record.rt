// An event as the eight numbers of a script, and back.
use events::Event;
use script::answer::Answers;
use script::args::front;

// The event whose numbers are the eight arguments.
pub fn event_of(args: &[i64]) -> Event {
    let [kind, time, channel, v1, v2, v3, offset, len] = front::<8>(args);
    Event {
        kind,
        time,
        channel,
        v1,
        v2,
        v3,
        offset,
        len,
    }
}

// An event as an answer.
pub fn numbers_of(e: Event) -> Answers {
    Answers::Eight([e.kind, e.time, e.channel, e.v1, e.v2, e.v3, e.offset, e.len])
}
