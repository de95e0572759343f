//! A console: what stands between a session and a terminal. Its source hands over only lines that
//! the session takes, and tells its user of each other line why it doesn't; its sink hands on what
//! the session prints as it is, and keeps what the prompt shows.
#![tactic(auto)]

mod board;
mod explain;
mod form;
mod help;
mod lines;
mod near;
mod noted;
mod numbers;
mod screen;
mod source;
mod taken;
mod whole;
mod word;

pub use board::{Board, Hint};
pub use form::{Form, Kind, form_of};
pub use lines::Lines;
pub use noted::Noted;
pub use numbers::numbers_of;
pub use screen::{Notes, Numbers, Screen};
pub use source::Console;
pub use taken::is_taken;
