// How long a replica with tickets is, and where the tickets' part has what.

// Where the tickets' part starts: its letter, and then its version.
pub const LETTER: usize = 616;

pub const VERSION: usize = 617;

// 1 where the latest ticket can be committed, else 0.
pub const MARK: usize = 618;

// The latest ticket.
pub const LATEST: usize = 624;

// What the step of the latest ticket leaves.
pub const STEP: usize = 632;

// The tickets' part, and all.
pub const TICKETS: usize = 136;

pub const TICKETED: usize = 752;
