//! From the words to the request.
ghost use Rattle.std.specs.Prelude.{◌≡◌, IfOk, map};
ghost use Rattle.std.specs.String.{string_bytes};
ghost use Rattle.lab_arguments.specs.Inner.Commands.{text_behind};
ghost use Rattle.lab_arguments.specs.Requests.{check_of, check_words, gen_of, gen_words, request_of, run_of, run_words};
ghost use Rattle.lab_arguments.specs.Requests.{IsReadAs, IsWithin};

use crate::command::{check_texts, gen_texts, run_texts};
use crate::request::{Request, UsageCause, WordsFault};
use crate::text::{count, is_number, is_number_if_given, is_time_if_given, seed, until, workers};
use lab_num::{MOST_BOARDS, Text};
use std::alloc::Global;

fn run_request(
    alloc: Global,
    script: Option<&str>,
    workers_text: Option<&str>,
    until_text: Option<&str>,
) -> Result<Request, WordsFault>
    ensures read { IsReadAs
        (run_of (text_behind script.entry) (text_behind workers_text.entry) (text_behind until_text.entry))
        result }
    ensures within { IfOk result IsWithin }
{
    let Some(script) = script else {
        return Err(WordsFault::Usage(UsageCause::Words));
    };
    if !is_number_if_given(workers_text) || !is_time_if_given(until_text) {
        return Err(WordsFault::Usage(UsageCause::Words));
    }
    let workers = workers(workers_text)?;
    let until = until(until_text)?;
    let script = Text::of(alloc, script)?;
    Ok(Request::Run {
        script,
        workers,
        until,
    })
}

fn gen_request(
    seed_text: Option<&str>,
    boards_text: Option<&str>,
    workers_text: Option<&str>,
) -> Result<Request, UsageCause>
    ensures read { result
        ≡ gen_of (text_behind seed_text.entry) (text_behind boards_text.entry) (text_behind workers_text.entry) }
    ensures within { IfOk result IsWithin }
{
    let (Some(seed_text), Some(boards_text)) = (seed_text, boards_text) else {
        return Err(UsageCause::Words);
    };
    if !is_number(seed_text) || !is_number(boards_text) || !is_number_if_given(workers_text) {
        return Err(UsageCause::Words);
    }
    let seed = seed(seed_text)?;
    let boards = count(boards_text, MOST_BOARDS)?;
    let workers = workers(workers_text)?;
    Ok(Request::Gen {
        seed,
        boards,
        workers,
    })
}

fn read_run(alloc: Global, words: &[String]) -> Result<Request, WordsFault>
    ensures read { IsReadAs (run_words (map string_bytes words.now)) result }
    ensures within { IfOk result IsWithin }
{
    match run_texts(alloc, words) {
        Ok(texts) => {
            let script = texts.get_str("SCRIPT");
            let workers = texts.get_str("workers");
            let until = texts.get_str("until");
            run_request(alloc, script, workers, until)
        }
        Err(fault) => Err(fault),
    }
}

fn check_request(alloc: Global, script: Option<&str>) -> Result<Request, WordsFault>
    ensures read { IsReadAs (check_of (text_behind script.entry)) result }
    ensures within { IfOk result IsWithin }
{
    let Some(script) = script else {
        return Err(WordsFault::Usage(UsageCause::Words));
    };
    let script = Text::of(alloc, script)?;
    Ok(Request::Check { script })
}

fn read_check(alloc: Global, words: &[String]) -> Result<Request, WordsFault>
    ensures read { IsReadAs (check_words (map string_bytes words.now)) result }
    ensures within { IfOk result IsWithin }
{
    match check_texts(alloc, words) {
        Ok(texts) => check_request(alloc, texts.get_str("SCRIPT")),
        Err(fault) => Err(fault),
    }
}

fn read_gen(alloc: Global, words: &[String]) -> Result<Request, WordsFault>
    ensures read { IsReadAs (gen_words (map string_bytes words.now)) result }
    ensures within { IfOk result IsWithin }
{
    match gen_texts(alloc, words) {
        Ok(texts) => {
            let seed = texts.get_str("SEED");
            let boards = texts.get_str("BOARDS");
            let workers = texts.get_str("workers");
            gen_request(seed, boards, workers).map_err(WordsFault::Usage)
        }
        Err(fault) => Err(fault),
    }
}

/// What the words after the program's name ask for. An option stands anywhere after the command
/// and before `--`, at most once, as `--NAME TEXT` or `--NAME=TEXT`; its text is not empty and
/// does not begin with `-`. Numbers have 1 to 20 decimal digits, and times the forms of
/// `lab_num::read_time`.
#[tactic(auto, unfolding(crate::specs::Requests::request_of))]
pub fn read_words(alloc: Global, words: &[String]) -> Result<Request, WordsFault>
    ensures read { IsReadAs (request_of (map string_bytes words.now)) result }
    ensures within { IfOk result IsWithin }
{
    match words {
        [] => Err(WordsFault::Usage(UsageCause::Command)),
        [command, rest @ ..] => match command.as_str() {
            "run" => read_run(alloc, rest),
            "check" => read_check(alloc, rest),
            "gen" => read_gen(alloc, rest),
            _ => Err(WordsFault::Usage(UsageCause::Command)),
        },
    }
}
