//! The edge of the program: the words that it takes, and the exit code that it gives.
use crate::bench::words_of;
use lab_num::NoMemory;
use lab_top::{Status, UsageCause, exit_code, words_after_name};
use std::test::Fail;

#[test]
fn the_first_of_all_words_is_the_programs_name(rt: HostRuntime) -> Result<(), Fail> {
    let words = words_after_name(words_of(rt.alloc(), &["lab", "check", "s.resc"])?);
    assert!(rt; words.len() == 2 && words[0].as_str() == "check" && words[1].as_str() == "s.resc");
    let none = words_after_name(words_of(rt.alloc(), &[])?);
    assert!(rt; none.is_empty());
    Ok(())
}

#[test]
fn each_end_but_a_refused_script_has_its_exit_code(rt: HostRuntime) -> Result<(), Fail> {
    let codes = [
        exit_code(&Ok(Status::Done)),
        exit_code(&Ok(Status::Memory)),
        exit_code(&Ok(Status::Usage(UsageCause::Value))),
        exit_code(&Ok(Status::Unread)),
        exit_code(&Ok(Status::Unwritten)),
        exit_code(&Ok(Status::Unstored)),
        exit_code(&Err(NoMemory)),
    ];
    assert_eq!(rt; codes, [0, 1, 2, 4, 5, 6, 1]);
    Ok(())
}
