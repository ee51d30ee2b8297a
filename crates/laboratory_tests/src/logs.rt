//! Which lists are open lines.
use lab_num::{BoardNo, Member, Micros, NoMemory, Rows};
use log_text::{Lines, OpenLine};
use std::alloc::Global;
use std::test::Fail;

/// The longest line that is not ended, of 127 bytes.
const LONGEST: &str = "\
xxxxxxxxxxxxxxxxxxxxxxxxxxxxxxxxxxxxxxxxxxxxxxxxxxxxxxxxxxxxxxxx\
xxxxxxxxxxxxxxxxxxxxxxxxxxxxxxxxxxxxxxxxxxxxxxxxxxxxxxxxxxxxxxx";

/// A whole line, of 128 bytes.
const WHOLE: &str = "\
xxxxxxxxxxxxxxxxxxxxxxxxxxxxxxxxxxxxxxxxxxxxxxxxxxxxxxxxxxxxxxxx\
xxxxxxxxxxxxxxxxxxxxxxxxxxxxxxxxxxxxxxxxxxxxxxxxxxxxxxxxxxxxxxxx";

/// Bytes of a device of a board.
type Line = (u8, u8, &'static str);

/// The open line that a row of a list is.
fn open_line(alloc: Global, line: &Line) -> Result<OpenLine, NoMemory> {
    let (board, dev, bytes) = *line;
    Ok(OpenLine {
        member: Member {
            board: BoardNo(board),
            dev,
        },
        at: Micros(5),
        bytes: Rows::of(Vec::from_slice(alloc, bytes.as_bytes())?),
    })
}

fn open_lines(alloc: Global, list: &[Line]) -> Result<Vec<OpenLine>, NoMemory> {
    let mut lines = Vec::new(alloc);
    for line in list {
        lines.push(open_line(alloc, line)?)?;
    }
    Ok(lines)
}

/// Each row: lines, and whether they are open lines.
static LISTS: [(&[Line], bool); 10] = [
    (&[], true),
    (&[(0, 1, "a")], true),
    (&[(0, 1, "a"), (0, 2, "bc"), (1, 0, LONGEST)], true),
    (&[(0, 1, "a"), (0, 1, "b")], false),
    (&[(0, 1, "a"), (0, 0, "b")], false),
    (&[(1, 0, "a"), (0, 1, "b")], false),
    (&[(0, 0, "a"), (2, 0, "b"), (1, 0, "c")], false),
    (&[(0, 0, "a"), (0, 1, "")], false),
    (&[(0, 0, WHOLE)], false),
    (&[(0, 0, "a\n")], false),
];

/// The lines are open lines, and are kept as they are; or they are none, if they are not to be.
fn is_told(alloc: Global, list: &[Line], are_open: bool) -> Result<bool, NoMemory> {
    let wanted = open_lines(alloc, list)?;
    match Lines::of(open_lines(alloc, list)?) {
        Some(lines) => Ok(are_open && lines.unended() == wanted.as_slice()),
        None => Ok(!are_open),
    }
}

#[test]
fn a_list_is_open_lines_where_it_rises_and_no_line_is_empty_or_ended(
    rt: HostRuntime,
) -> Result<(), Fail> {
    for (list, are_open) in &LISTS {
        let is_told = is_told(rt.alloc(), list, *are_open)?;
        assert!(rt; is_told);
    }
    Ok(())
}
