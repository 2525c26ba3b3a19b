// B, T and O: the budget, the numbers that stand in a track alone, and the options of its targets.
use crate::stored::{counted, show_row};
use budget::Budget;
use script::page::Page;
use state::{OPTIONS, Track};
use values::WriteOption;

// B: seed, maximum, used, flag.
pub fn show_budget(page: &mut Page, b: &Budget) {
    show_row(
        page,
        b'B',
        &[
            i64::from(b.seed),
            i64::from(b.maximum),
            i64::from(b.used),
            i64::from(b.over),
        ],
    );
}

// T: timebase, timepos, channel, both frequencies, velocity, timing, octave, qlen, qlen_is_step.
pub fn show_track(page: &mut Page, t: &Track) {
    show_row(
        page,
        b'T',
        &[
            i64::from(t.timebase),
            t.timepos,
            i64::from(t.channel),
            i64::from(t.ccfreq),
            i64::from(t.pbfreq),
            i64::from(t.velocity),
            i64::from(t.timing),
            i64::from(t.octave),
            i64::from(t.qlen),
            i64::from(t.step),
        ],
    );
}

// Whether anything is set in an option.
fn is_set(o: &WriteOption) -> bool {
    o.delay != 0 || o.random != 0 || o.ranged != 0 || o.repeat != 0
}

// Key, delay, random, ranged, low, high, repeat.
fn put_option(page: &mut Page, key: usize, o: &WriteOption) {
    page.numbers(&[
        counted(key),
        i64::from(o.delay),
        i64::from(o.random),
        i64::from(o.ranged),
        i64::from(o.low),
        i64::from(o.high),
        i64::from(o.repeat),
    ]);
}

// O: how many options have anything set, and each of these.
pub fn show_options(page: &mut Page, options: &[WriteOption; OPTIONS]) {
    page.begin(b'O');
    page.number(counted(options.iter().filter(|o| is_set(o)).count()));
    for (key, o) in options.iter().enumerate() {
        if is_set(o) {
            put_option(page, key, o);
        }
    }
    page.end();
}
