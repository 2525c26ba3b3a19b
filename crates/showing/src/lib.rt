// The sections that show a desk after a call, as docs/COMPARING.md says: which follow a call, and in which order, stands here.
// Below are the rows of the budget and the track, and the options (numbered), the parameters (played), the tables of layers
// and of what is reserved for targets (waiting), and the event lists (written). What they have in common is in `stored`.
#![tactic(auto)]

mod numbered;
mod played;
mod stored;
mod waiting;
mod written;

use desk::{Buffers, Desk, param_of};
use numbered::{show_budget, show_options, show_track};
use played::{show_named, show_params};
use script::page::Page;
use script::reader::family_of;
use waiting::show_table;
use written::{show_list, show_numbers};

// `Split` is the list of call 306, `Output` that of call 311, and `Named` the parameter that the call named.
#[derive(Clone, Copy, Debug, PartialEq, Eq)]
enum Section {
    Budget,
    Cycles,
    Events,
    Layers,
    Named,
    Notes,
    Options,
    Output,
    Params,
    Sines,
    Split,
    Track,
    Waves,
}

// The sections of a call: its own, or its family's.
fn sections_of(op: i64) -> &'static [Section] {
    match op {
        306 => &[Section::Events, Section::Split],
        311 => &[Section::Events, Section::Output],
        418 => &[],
        915 => &[
            Section::Events,
            Section::Budget,
            Section::Track,
            Section::Options,
            Section::Params,
            Section::Layers,
            Section::Notes,
            Section::Waves,
            Section::Sines,
            Section::Cycles,
        ],
        _ => sections_of_family(family_of(op)),
    }
}

fn sections_of_family(family: u32) -> &'static [Section] {
    match family {
        2 => &[Section::Budget],
        3 => &[Section::Events],
        4 => &[Section::Named],
        5 => &[Section::Track, Section::Params, Section::Layers],
        6 => &[Section::Events, Section::Budget, Section::Options],
        7 => &[
            Section::Events,
            Section::Budget,
            Section::Track,
            Section::Options,
            Section::Notes,
            Section::Waves,
            Section::Sines,
            Section::Cycles,
        ],
        8 => &[Section::Track],
        _ => &[],
    }
}

fn show_section(section: Section, page: &mut Page, desk: &Desk, buffers: &Buffers) {
    let track = &desk.track;
    match section {
        Section::Budget => show_budget(page, &desk.budget),
        Section::Cycles => show_table(page, b'C', track.cycles, &desk.cycles),
        Section::Events => show_list(page, b'E', desk.count, &buffers.events, &buffers.store),
        Section::Layers => show_table(page, b'L', track.layers.count, &track.layers.items),
        Section::Named => show_named(page, param_of(track, desk.named)),
        Section::Notes => show_table(page, b'N', track.notes.count, &track.notes.items),
        Section::Options => show_options(page, &track.options),
        Section::Output => show_numbers(page, b'K', desk.split, &buffers.second),
        Section::Params => show_params(page, track),
        Section::Sines => show_table(page, b'S', track.sines.count, &track.sines.items),
        Section::Split => show_list(page, b'R', desk.split, &buffers.second, &buffers.store),
        Section::Track => show_track(page, track),
        Section::Waves => show_table(page, b'W', track.waves.count, &track.waves.items),
    }
}

// The sections of a call.
pub fn show(op: i64, page: &mut Page, desk: &Desk, buffers: &Buffers) {
    for section in sections_of(op) {
        show_section(*section, page, desk, buffers);
    }
}
