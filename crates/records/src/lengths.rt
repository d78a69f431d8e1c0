// How long a record and its parts are.

// Where the part of what is held starts, after the settings'.
pub const SETTINGS: usize = 496;

pub const HELD: usize = 120;

pub const RECORD: usize = 616;
