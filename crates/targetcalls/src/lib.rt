// The calls of a script on what is reserved for targets (family 7): lists, waves and sines for notes, cycles, and the calls
// that write them. Each is handed the track, the cycle table, the budget and the list as the desk holds them, spoilt or
// not, and changes the desk in place.
#![tactic(auto)]

pub mod family7;
