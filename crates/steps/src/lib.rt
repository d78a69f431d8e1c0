// The calls of a replica on areas of numbers, for the comparison with a second implementation alone: a replica may be handed in with anything in
// it. C hands its tables and areas one by one, so these functions take them one by one, and lay a replica out in areas of their own form.
#![tactic(auto)]

mod areas;
pub mod calls;
pub mod page_calls;
