//! The words of the program's command line, and what standard error says of a
//! run that did not end well.
#![tactic(auto)]

mod definition;
mod failed;
mod faulty;
mod given;
mod messages;
mod refused;
mod words;

pub use failed::Failed;
pub use faulty::complaint;
pub use given::{Command, Job, Product};
pub use messages::{message, stored_message};
pub use refused::{named_file, refused_file};
pub use words::{BadWords, read_command};
