// The record of a replica (docs/RECORD.md): recording, reading, and returning after a power cycle.
#![tactic(auto)]

pub mod conditions;
pub mod held_part;
pub mod lengths;
pub mod reading;
pub mod recording;
pub mod returning;
pub mod settings_part;
