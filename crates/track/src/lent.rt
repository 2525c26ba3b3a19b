// The same calls as a caller lends them what they change: the budget record, and the table of sixteen cycle records.
pub use lending::{Answer, write_cc_on_cycle};
pub use loans::{
    NoteAnswer, remove_reserve, set_on_cycle, set_on_note, set_on_note_sine, set_on_note_wave,
    write_cc_on_note, write_cc_on_note_wave, write_cc_on_time, write_on_time, write_pb_on_time,
    write_sine,
};
