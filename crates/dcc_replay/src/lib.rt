//! Scripts of events, replayed: the events of a script, the run of an engine over them, and the printed form of the run.
//!
//! Stands on `dcc_engine`, on `dcc_words` for words, and on `dcc_streams` for readers and writers. The contract that it gives:
//! [`replay_run`] writes the printed form of the outs of a run over the events of the script. If the writer fails, a beginning of it is
//! written; with any other fault nothing is written.
#![tactic(auto)]

mod fault;
mod names;
mod printing;
mod replay;
mod script;

pub use fault::ReplayFault;
pub use names::identity_of;
pub use printing::printed;
pub use replay::replay_run;
pub use script::{ScriptFault, read_script};
