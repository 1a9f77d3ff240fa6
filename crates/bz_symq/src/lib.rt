//! The parts of a run of the program: one command, and the texts that it writes.
#![tactic(auto)]

mod asking;
mod command;
pub mod laws;
mod output;
mod own_process;
mod process;
mod product;
mod program;
mod reply;
mod status;
mod texts;

pub use asking::new_symbolizer;
pub use command::{Batch, Command, FileTarget, Product, Target};
pub use output::{finish, write_said};
pub use own_process::own_pid;
pub use program::{failed, run_command, run_counted, unread};
pub use reply::{
    OwnedAnswers, Reply, Said, bad_line, made_reply, refusal, stored_reply, text_reply,
};
pub use status::Status;
