// What crate winder does, for C programs: an export for each function, with its clauses. include/winder.h declares them.
#![tactic(auto)]

pub mod command_calls;
pub mod frame_calls;
pub mod law_calls;
pub mod page_calls;
pub mod reading_calls;
pub mod record_calls;
pub mod replica_calls;
pub mod ticket_calls;
pub mod version;
