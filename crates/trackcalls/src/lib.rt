// The calls of a script on a track: its parameters and layers (family 5), options, one value, curves and sines (6), its own
// numbers (8). Each is handed the desk, and changes it in place.
#![tactic(auto)]

pub mod family5;
pub mod family6;
pub mod family8;
