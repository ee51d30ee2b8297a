//! The words of the command line.
ghost use Rattle.std.specs.Prelude.{◌≡◌, drop};

use lab_num::NoMemory;
use std::env;
use std::io::ErrorKind;
use std::rt::Env;

/// The words after the program's name, which is the first of all words, if there is one.
pub fn words_after_name(all: Vec<String>) -> Vec<String>
    ensures { result.items ≡ drop 1 all.items }
{
    let mut words = all;
    if !words.is_empty() {
        let _name = words.remove(0);
    }
    words
}

/// The words after the program's name that the program was started with, in their order. Where one of
/// them is not UTF-8 there are none. What the words are no contract says.
pub fn command_words<R: Env + AllocGlobal>(rt: &R) -> Result<Vec<String>, NoMemory> {
    match env::args(rt) {
        Ok(words) => {
            let all: Vec<String> = words.collect(rt.alloc())?;
            Ok(words_after_name(all))
        }
        Err(error) if error.kind() == ErrorKind::InvalidData => Ok(Vec::new(rt.alloc())),
        Err(_) => Err(NoMemory),
    }
}
