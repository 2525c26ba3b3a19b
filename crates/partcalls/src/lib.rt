// The calls of a script on a track's parts: events (family 1), leaves (2), the list (3), the note parameters (4). Each is
// handed what its family takes of the desk, and changes it in place. Call 305, which asks the whole track, is not here.
#![tactic(auto)]

pub mod family1;
pub mod family2;
pub mod family3;
pub mod family4;
mod input;
mod output;
mod record;
