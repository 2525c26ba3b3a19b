// E and R: the event lists. K: numbers as they stand.
use crate::stored::counted;
use eventlist::WIDTH;
use script::page::Page;

// A stretch of the store, where it is inside.
fn stretch(store: &[u8], offset: i64, len: i64) -> Option<&[u8]> {
    let from = usize::try_from(offset).ok()?;
    let n = usize::try_from(len).ok()?;
    store.get(from..)?.get(..n)
}

// The record at `place`; past the last one zeros.
fn record_at(events: &[i64], place: usize) -> [i64; WIDTH] {
    events
        .get(place.saturating_mul(WIDTH)..)
        .and_then(|rest| rest.first_chunk())
        .copied()
        .unwrap_or([0; WIDTH])
}

// A record: kind, time, channel, v1, v2, v3, the length of its data and its bytes.
fn put_record(page: &mut Page, record: [i64; WIDTH], store: &[u8]) {
    let [kind, time, channel, v1, v2, v3, offset, len] = record;
    page.numbers(&[kind, time, channel, v1, v2, v3, len]);
    for byte in stretch(store, offset, len).unwrap_or(&[]) {
        page.number(i64::from(*byte));
    }
}

// E, or R: the count, and each record.
pub fn show_list(page: &mut Page, letter: u8, count: usize, events: &[i64], store: &[u8]) {
    page.begin(letter);
    page.number(counted(count));
    for place in 0..count {
        put_record(page, record_at(events, place), store);
    }
    page.end();
}

// The first `count` numbers.
pub fn show_numbers(page: &mut Page, letter: u8, count: usize, numbers: &[i64]) {
    page.begin(letter);
    for x in numbers.iter().take(count) {
        page.number(*x);
    }
    page.end();
}
