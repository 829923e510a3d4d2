//! What the register's program does: `batch` answers a script; `serve` serves HTTP and the change stream from a register that
//! begins empty; `stats` and `zones` write the statistics file and the reverse zones of the register that a script leaves;
//! `mirror` writes the objects of a mirror that is fed the script; `load` writes the sums of a load.
#![tactic(auto)]

mod answer;
mod answer_line;
mod apply;
mod batch;
mod command;
mod due_lines;
mod exit;
mod held_replies;
mod laws;
mod line_buffer;
mod load;
mod mirror;
mod policy_bytes;
mod program;
mod publish;
mod serve;
mod session;

pub use exit::Exit;
pub use program::run;
