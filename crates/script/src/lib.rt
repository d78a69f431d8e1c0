// Scripts played: what one event does to a box and to the frames sent, the line that is printed, and what the programs print of a whole script.
#![tactic(auto)]

mod asking;
mod boxes;
mod decimals;
pub mod output;
mod play;
mod printing;
