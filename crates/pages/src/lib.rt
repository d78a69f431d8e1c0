// The shift page: what the group did, a line for each period, written to an area and read back.
#![tactic(auto)]

pub mod columns;
pub mod entries;
pub mod lines;
pub mod placing;
pub mod reading;
pub mod writing;
