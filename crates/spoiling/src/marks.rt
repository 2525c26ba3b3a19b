// A number of a stored list, and a position in it.
use counted::Numbers;
use script::args::as_i32;

// A position that is past every list: it stands for one below 0.
const NOWHERE: usize = 4294967295;

pub fn place_of(value: i64) -> usize {
    usize::try_from(value).unwrap_or(NOWHERE)
}

// Number i of a list, where it has such a place.
pub fn put_item(list: &mut Numbers, i: usize, value: i64) {
    if let Some(item) = list.items.get_mut(i) {
        *item = as_i32(value);
    }
}
