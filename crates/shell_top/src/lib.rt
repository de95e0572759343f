//! The shell: reads a script, has the cluster serve it, and prints the replies or writes the trace; and checks traces.
#![tactic(auto)]

mod arranged;
mod asked;
mod checked;
mod disks;
mod ended;
mod gathered;
mod lives;
mod reader;
mod run;
mod script;
mod served;
mod session;
mod stopped;
mod subject;
mod taken;
mod telling;
mod text;
mod trace_text;
mod traced;
mod unheard;
mod words;
mod writer;

pub use ended::Ended;
pub use run::run_shell;
