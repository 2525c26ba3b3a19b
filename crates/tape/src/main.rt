// The tape program: standard input is a tape, standard output what document 01 prints of it, its events or its refusal. What is
// printed is one proved text (`spool::print_tape`); here it is read and written.
#![tactic(auto)]

use lines::PAGE;
use spool::{LIST_ROOM, TAPE_ROOM, write_tape};
use std::io::Result;
use streams::read_full;

fn main(rt: HostRuntime) -> Result<()> {
    let mut from = rt.stdin();
    let mut space = [0; TAPE_ROOM];
    let mut events = [0; LIST_ROOM];
    let mut page = [0; PAGE];
    let n = read_full(&mut from, &mut space);
    write_tape(rt.stdout(), &space[..n], &mut events, &mut page)
}
