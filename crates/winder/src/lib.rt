// The law, the frames, the conversion of readings, the shift page and the replica for C programs, on numbers and areas. Crate winder_c exports the
// functions that include/winder.h declares. C hands the tables, areas and numbers one by one, so these functions take them one by one.
#![tactic(auto)]

pub mod answers;
pub mod areas;
pub mod command_calls;
pub mod frame_calls;
pub mod law_calls;
pub mod page_calls;
pub mod reading_calls;
pub mod record_calls;
pub mod replica_calls;
pub mod ticket_calls;
pub mod version;
