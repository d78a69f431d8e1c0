// Decimals printed and read: the one place that says how a number is written; and where parts of a text end.
#![tactic(auto)]

pub mod lines;
pub mod numbers;
pub mod printing;
