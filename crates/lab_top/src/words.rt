//! What the words ask for: a script and how it is run, or a generated laboratory.
ghost use Rattle.std.specs.Prelude.{IfOk, Ok, map, string_bytes};
ghost use Rattle.lab_arguments.specs.Requests.{IsWithin};
ghost use Rattle.lab_top.specs.Request.{by_reading, request_of};
ghost use Rattle.lab_top.specs.Inner.Words.{IsAsked, IsInRange};

use lab_arguments::{Request, WordsFault, read_words};
use lab_num::{Micros, Text};
use monitor::Setting;
use std::alloc::Global;

/// A script, by the name of its file, and how it is run.
#[derive(Drop)]
pub(crate) struct ScriptRun {
    pub script: Text,
    pub setting: Setting,
}

/// What the words ask for.
#[derive(Drop)]
pub(crate) enum Asked {
    Script(ScriptRun),
    /// The laboratory of a seed, and how many workers run it.
    Generated { seed: u64, boards: u8, workers: u8 },
}

/// What the words ask for.
pub(crate) fn read_request(alloc: Global, words: &[String]) -> Result<Asked, WordsFault>
    ensures read { IsAsked (request_of (map string_bytes words.now)) result }
    ensures range { IfOk result (λ asked. IsInRange asked) }
{
    match read_words(alloc, words) {
        Ok(request) => Ok(asked_by(request)),
        Err(fault) => Err(fault),
    }
}

/// What is to be done for a request.
fn asked_by(request: Request) -> Asked
    requires { IsWithin request }
    ensures read { IsAsked (by_reading (Ok request)) (Ok result) }
    ensures range { IsInRange result }
{
    match request {
        Request::Run {
            script,
            workers,
            until,
        } => Asked::Script(ScriptRun {
            script,
            setting: Setting {
                workers,
                until,
                dry: false,
            },
        }),
        Request::Check { script } => Asked::Script(ScriptRun {
            script,
            setting: Setting {
                workers: 1,
                until: Micros(0),
                dry: true,
            },
        }),
        Request::Gen {
            seed,
            boards,
            workers,
        } => Asked::Generated {
            seed,
            boards,
            workers,
        },
    }
}
