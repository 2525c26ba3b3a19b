// L, N, W, S and C: tables, each its count and its entries in the order of entry. L has the velocity layers, the others what
// is reserved for targets.
use crate::played::put_reserve;
use crate::stored::{counted, placed, put_list};
use cycles::Cycle;
use layers::Layer;
use script::page::Page;
use tables::{OnNoteSine, OnNoteValues, OnNoteWave};

// What a table shows of an entry.
pub trait Entry {
    fn put(&self, page: &mut Page);
}

// Value, random, and the reservation.
impl Entry for Layer {
    fn put(&self, page: &mut Page) {
        page.numbers(&[i64::from(self.value), i64::from(self.random)]);
        put_reserve(page, &self.reserve);
    }
}

// Target, index, cycling, and the list.
impl Entry for OnNoteValues {
    fn put(&self, page: &mut Page) {
        page.numbers(&[
            i64::from(self.target),
            placed(self.index),
            i64::from(self.cycling),
        ]);
        put_list(page, &self.values);
    }
}

// Target, mode, and the list.
impl Entry for OnNoteWave {
    fn put(&self, page: &mut Page) {
        page.numbers(&[i64::from(self.target), i64::from(self.mode)]);
        put_list(page, &self.values);
    }
}

// Target, type, low, high, length, times.
impl Entry for OnNoteSine {
    fn put(&self, page: &mut Page) {
        page.numbers(&[
            i64::from(self.target),
            i64::from(self.shape),
            i64::from(self.low),
            i64::from(self.high),
            i64::from(self.length),
            i64::from(self.times),
        ]);
    }
}

// Target, length, next, index, and the list.
impl Entry for Cycle {
    fn put(&self, page: &mut Page) {
        page.numbers(&[
            i64::from(self.target),
            i64::from(self.length),
            self.next,
            placed(self.index),
        ]);
        put_list(page, &self.values);
    }
}

pub fn show_table<E: Entry>(page: &mut Page, letter: u8, count: usize, entries: &[E]) {
    page.begin(letter);
    page.number(counted(count));
    for entry in entries.iter().take(count) {
        entry.put(page);
    }
    page.end();
}
