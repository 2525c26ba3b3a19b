// What sections are made of: rows of numbers, and lists that a track stores.
use counted::Numbers;
use desk::MOST_RECORDS;
use script::page::Page;

// A count as a number.
pub fn counted(n: usize) -> i64 {
    if n > MOST_RECORDS { 0 } else { n as i64 }
}

// A position in a list. One past every list stands for one below 0, which a script can put there and no position of
// the port can be.
pub fn placed(i: usize) -> i64 {
    if i > MOST_RECORDS { -1 } else { i as i64 }
}

// A stored list: its count, and each number.
pub fn put_list(page: &mut Page, list: &Numbers) {
    page.number(counted(list.count));
    for x in list.items.iter().take(list.count) {
        page.number(i64::from(*x));
    }
}

// A section that is a row.
pub fn show_row(page: &mut Page, letter: u8, row: &[i64]) {
    page.begin(letter);
    page.numbers(row);
    page.end();
}
