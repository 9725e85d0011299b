//! The program `dcc` at an operator's console: its words, help for each command, the explanation of a failure, and `dcc check`.
//!
//! Stands on `dcc_program` for the work and for the one line of a failure, and on `dcc_explain` for the words of explanations. The contract that it
//! gives: [`without_explain`] takes `--explain` out of a command line, and nothing else; [`end_with`] writes the line of a failure as
//! `dcc_program::end` does, and behind it the lines of its explanation. [`execute`] is all of it, for a `main` of one line. Without `--explain`
//! nothing but the line of a failure is written on standard error. No clause says which words explain a failure.
#![tactic(auto)]

mod calling;
mod checking;
mod doing;
mod ending;
mod explain_word;
mod process;
mod reasons;
mod task_words;
mod top_up;
mod watched;

pub use ending::end_with;
pub use explain_word::without_explain;
pub use process::execute;
pub use watched::{WatchedInput, WatchedOutput};
