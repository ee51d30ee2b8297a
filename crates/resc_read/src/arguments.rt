//! The arguments of a command: how many words there are, and of which sorts.
ghost use Rattle.std.specs.Prelude.{◌≡◌, map};
ghost use Rattle.resc_read.specs.Arguments as arguments;

use crate::command::LineCause;
use crate::sorts::{name_of, path_of, text_of, truth_of};
use crate::variable::variable_of;
use lab_num::{MOST_DELAY, MOST_QUANTUM, MOST_SPEED, Micros, number_of, read_time};

pub(crate) fn name(word: &str) -> Result<&str, LineCause>
    ensures { arguments.map_ok (λ text. text.now) result ≡ arguments.name word.now }
{
    name_of(word).ok_or(LineCause::Arguments)
}

pub(crate) fn entry(word: &str) -> Result<&str, LineCause>
    ensures { arguments.map_ok (λ text. text.now) result ≡ arguments.entry word.now }
{
    text_of(word).ok_or(LineCause::Arguments)
}

pub(crate) fn path(word: &str) -> Result<&str, LineCause>
    ensures { arguments.map_ok (λ text. text.now) result ≡ arguments.path word.now }
{
    path_of(word).ok_or(LineCause::Arguments)
}

pub(crate) fn variable(word: &str) -> Result<&str, LineCause>
    ensures { arguments.map_ok (λ text. text.now) result ≡ arguments.variable word.now }
{
    variable_of(word).ok_or(LineCause::Arguments)
}

pub(crate) fn number(word: &str) -> Result<u32, LineCause>
    ensures { result ≡ arguments.number word.now }
{
    number_of(word).ok_or(LineCause::Arguments)
}

pub(crate) fn truth(word: &str) -> Result<bool, LineCause>
    ensures { result ≡ arguments.truth word.now }
{
    truth_of(word).ok_or(LineCause::Arguments)
}

pub(crate) fn speed(word: &str) -> Result<u32, LineCause>
    ensures { result ≡ arguments.speed word.now }
{
    let n = number(word)?;
    if n >= 1 && n <= MOST_SPEED {
        Ok(n)
    } else {
        Err(LineCause::Arguments)
    }
}

pub(crate) fn time(word: &str) -> Result<Micros, LineCause>
    ensures { result ≡ arguments.time word.now }
{
    match read_time(entry(word)?) {
        Ok(length) => Ok(length),
        Err(_) => Err(LineCause::Time),
    }
}

pub(crate) fn quantum(word: &str) -> Result<Micros, LineCause>
    ensures { result ≡ arguments.quantum word.now }
{
    let length = time(word)?;
    if length.0 >= 1 && length.0 <= MOST_QUANTUM {
        Ok(length)
    } else {
        Err(LineCause::Time)
    }
}

fn delay(word: &str) -> Result<Micros, LineCause>
    ensures { result ≡ arguments.delay word.now }
{
    let length = time(word)?;
    if length.0 <= u64::from(MOST_DELAY) {
        Ok(length)
    } else {
        Err(LineCause::Time)
    }
}

pub(crate) fn no_word(words: &[&str]) -> Result<(), LineCause>
    ensures { result ≡ arguments.no_word (map (λ word. word.now) words.now) }
{
    match words {
        [] => Ok(()),
        _ => Err(LineCause::Arguments),
    }
}

pub(crate) fn one_word<'a>(words: &[&'a str]) -> Result<&'a str, LineCause>
    ensures { arguments.map_ok (λ word. word.now) result
        ≡ arguments.one_word (map (λ word. word.now) words.now) }
{
    match words {
        [word] => Ok(*word),
        _ => Err(LineCause::Arguments),
    }
}

pub(crate) fn two_words<'a>(words: &[&'a str]) -> Result<(&'a str, &'a str), LineCause>
    ensures { arguments.map_ok (λ both. (both.0.now, both.1.now)) result
        ≡ arguments.two_words (map (λ word. word.now) words.now) }
{
    match words {
        [first, second] => Ok((*first, *second)),
        _ => Err(LineCause::Arguments),
    }
}

pub(crate) fn number_or_none(words: &[&str]) -> Result<Option<u32>, LineCause>
    ensures { result
        ≡ arguments.at_most_one arguments.number (map (λ word. word.now) words.now) }
{
    match words {
        [] => Ok(None),
        [word] => Ok(Some(number(word)?)),
        _ => Err(LineCause::Arguments),
    }
}

pub(crate) fn truth_or_none(words: &[&str]) -> Result<Option<bool>, LineCause>
    ensures { result
        ≡ arguments.at_most_one arguments.truth (map (λ word. word.now) words.now) }
{
    match words {
        [] => Ok(None),
        [word] => Ok(Some(truth(word)?)),
        _ => Err(LineCause::Arguments),
    }
}

pub(crate) fn speed_or_none(words: &[&str]) -> Result<Option<u32>, LineCause>
    ensures { result
        ≡ arguments.at_most_one arguments.speed (map (λ word. word.now) words.now) }
{
    match words {
        [] => Ok(None),
        [word] => Ok(Some(speed(word)?)),
        _ => Err(LineCause::Arguments),
    }
}

fn delay_or_none(words: &[&str]) -> Result<Option<Micros>, LineCause>
    ensures { result
        ≡ arguments.at_most_one arguments.delay (map (λ word. word.now) words.now) }
{
    match words {
        [] => Ok(None),
        [word] => Ok(Some(delay(word)?)),
        _ => Err(LineCause::Arguments),
    }
}

/// The name of a hub, and its delay: 0 where no word says it.
pub(crate) fn name_and_delay<'a>(words: &[&'a str]) -> Result<(&'a str, Micros), LineCause>
    ensures { arguments.map_ok (λ both. (both.0.now, both.1)) result
        ≡ arguments.name_and_delay (map (λ word. word.now) words.now) }
{
    let [word, others @ ..] = words else {
        return Err(LineCause::Arguments);
    };
    let name = name(word)?;
    let delay = delay_or_none(others)?;
    Ok((name, delay.unwrap_or(Micros(0))))
}
