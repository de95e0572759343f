//! The language of scripts: what a line means, and how a reply is printed.
#![tactic(auto)]

mod command;
mod fault;
mod keyword;
mod line;
mod number;
mod operation;
mod reply;
mod spelling;
mod words;

pub use command::Command;
pub use fault::LineFault;
pub use line::{first_word, parse_line};
pub use number::{numbers_are_decimal, read_digits};
pub use reply::{name_of, print_reply};
pub use spelling::commands_are_their_words;
