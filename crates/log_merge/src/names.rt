//! The names that the log prints.
use lab_num::{Rows, Text};

/// The names of all boards, in order of their numbers.
#[derive(Clone, Drop)]
pub struct Names {
    pub boards: Rows<BoardNames>,
}

/// The name of a board, and the names of its devices in order of their numbers.
#[derive(Clone, Drop)]
pub struct BoardNames {
    pub name: Text,
    pub devices: Rows<Text>,
}
