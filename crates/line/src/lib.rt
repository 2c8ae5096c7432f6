// The program's one line of text, made in a caller's buffer.
#![tactic(auto)]

mod lines;
mod program;
mod text;

pub use lines::{follow_line, refusal_line};
pub use program::run_line;
