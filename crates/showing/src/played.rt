// P: the note parameters. What a kind of reservation does not use is 0 in it.
use crate::stored::{placed, put_list};
use params::NoteParam;
use reserved::Reserve;
use script::page::Page;
use state::Track;

// Kind, start, length, index, cycling, and the list.
pub fn put_reserve(page: &mut Page, r: &Reserve) {
    page.numbers(&[
        i64::from(r.kind),
        r.start,
        i64::from(r.length),
        placed(r.index),
        i64::from(r.cycling),
    ]);
    put_list(page, &r.values);
}

// The reservation; random; ranged, low, high; delay; has-maximum, maximum; repeat.
fn put_param(page: &mut Page, n: &NoteParam) {
    put_reserve(page, &n.reserve);
    page.numbers(&[
        i64::from(n.random),
        i64::from(n.ranged),
        i64::from(n.low),
        i64::from(n.high),
        i64::from(n.delay),
        i64::from(n.maxed),
        i64::from(n.max),
        i64::from(n.repeat),
    ]);
}

// P of the parameter that the call named.
pub fn show_named(page: &mut Page, n: &NoteParam) {
    page.begin(b'P');
    put_param(page, n);
    page.end();
}

// P of all five.
pub fn show_params(page: &mut Page, track: &Track) {
    page.begin(b'P');
    for n in [&track.v, &track.q, &track.t, &track.o, &track.l] {
        put_param(page, n);
    }
    page.end();
}
