//! What is wrong, in words: the explanations of faults of a plan, of a script's line and of a command line.
//!
//! Its one job: a line for an operator that says key, table and line, or the word that doesn't fit, and the values that may stand there. Stands on
//! `dcc_tariff` for plans and on `dcc_words` for words; TOML is read by `toml`. The contract that it gives:
//! - [`explain_plan`] explains just the fault that `dcc_tariff` finds in a text, and a key of the plan that it names has that fault by itself.
//! - [`explain_line`] names a word of a script's line only if it isn't read as what its place asks for.
//! - [`explain_words`] names the word of a command line that doesn't fit, and the command's own line.
//!
//! The words themselves have no clause.
#![tactic(auto)]

mod help_text;
mod judging;
mod key;
mod kind;
mod line_note;
mod lines;
mod looks;
mod place;
mod plan_note;
mod plan_words;
mod strangers;
mod tariffs;
mod text;
mod usage;

pub use help_text::{help_of, usage_lines};
pub use key::Key;
pub use kind::Kind;
pub use line_note::{LineNote, Misfit, explain_ask, explain_line};
pub use looks::{Looks, StoreNote};
pub use place::Place;
pub use plan_note::{PlanNote, explain_plan};
pub use strangers::unread_keys;
pub use tariffs::Spot;
pub use text::quoted;
pub use usage::explain_words;
