// What the program `crossings` prints: a line for each call, and two at the end of the input.
#![tactic(auto)]

pub mod answer_line;
mod answer_words;
pub mod other_lines;
