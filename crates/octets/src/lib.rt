// Numbers and lists of values as bytes, the lowest byte first. Callers are proved; what is open to others is in frame.
#![tactic(auto)]

pub mod values;
pub mod word;
