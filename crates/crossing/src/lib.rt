// A script run on two joined ends: each line is read, its call made, and its answer handed out.
#![tactic(auto)]

mod both_ends;
mod handing;
pub mod input;
mod lines;
pub mod named;
mod near;
mod opened_ends;
pub mod run;
mod script_line;
mod step_text;
