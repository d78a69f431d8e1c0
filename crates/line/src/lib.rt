// The lines of a script: their fields, what they call for, and the frames that they sent.
#![tactic(auto)]

pub mod events;
pub mod fields;
pub mod frames;
mod singles;
pub mod ticket;
