// A script of calls and what is printed of it, as docs/COMPARING.md says, whatever the calls are: the words that are
// read (reader), a call's arguments (args), what it answers (answer), and lines and sections (page).
#![tactic(auto)]

pub mod answer;
pub mod args;
pub mod page;
pub mod reader;
