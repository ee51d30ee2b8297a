//! The lines of a monitor script: the command that a line asks for.
#![tactic(auto)]

mod arguments;
mod command;
pub mod laws;
mod one_text;
mod read;
mod sorts;
mod variable;
mod words;

pub use command::{Command, LineCause, LineFault};
pub use read::read_line;
pub use sorts::{cut, path_of, text_of};
pub use variable::{is_variable_name, variable_of};
pub use words::{is_blank, piece_len, words_of};
