// What bench and rig print, read back: each line for what it is, and the shift pages of a whole text.
#![tactic(auto)]

pub mod lines;
pub mod output;
mod taking;
mod values;
