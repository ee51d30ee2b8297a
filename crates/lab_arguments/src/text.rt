//! The texts of numbers and times.
ghost use Rattle.std.specs.Prelude.{◌≡◌, ◌≤◌, ◌^◌, IfOk, true};
ghost use Rattle.std.specs.Char.{is_ascii_digit};
ghost use Rattle.std.specs.List.{list_all};
ghost use Rattle.lab_arguments.specs.Inner.Commands.{text_behind};
ghost use Rattle.lab_arguments.specs.Requests as requests;
ghost use Rattle.lab_arguments.specs.Requests.{has_form_if_given, has_number_form, has_time_form, IsFrom};

use crate::request::UsageCause;
use lab_num::{Micros, TimeFault, read_time};

/// The most digits of a number.
const MOST_DIGITS: usize = 20;

/// The most workers.
const MOST_WORKERS: u8 = 8;

/// One second, up to which a script's boards run if nothing else is said.
const ONE_SECOND: Micros = Micros(1_000_000);

fn are_digits(text: &str) -> bool
    ensures { result ≡ list_all is_ascii_digit text.now }
{
    text.bytes().all(|b| b.is_ascii_digit())
}

/// Whether the text is 1 to 20 decimal digits.
pub fn is_number(text: &str) -> bool
    ensures { result ≡ has_number_form text.now }
{
    if text.is_empty() || text.len() > MOST_DIGITS {
        return false;
    }
    are_digits(text)
}

/// Whether the text has the form of a time.
pub fn is_time(text: &str) -> bool
    ensures { result ≡ has_time_form text.now }
{
    match read_time(text) {
        Err(TimeFault::Form) => false,
        _ => true,
    }
}

/// Whether an option is a number, or is not given.
#[tactic(auto, using(crate::proofs::TextLemmas::option_number))]
pub fn is_number_if_given(text: Option<&str>) -> bool
    ensures { result ≡ has_form_if_given has_number_form (text_behind text.entry) }
{
    match text {
        Some(text) => is_number(text),
        None => true,
    }
}

/// Whether an option is a time, or is not given.
#[tactic(auto, using(crate::proofs::TextLemmas::option_time))]
pub fn is_time_if_given(text: Option<&str>) -> bool
    ensures { result ≡ has_form_if_given has_time_form (text_behind text.entry) }
{
    match text {
        Some(text) => is_time(text),
        None => true,
    }
}

/// The number that the digits write, from 1 to `most`.
pub fn count(text: &str, most: u8) -> Result<u8, UsageCause>
    requires { has_number_form text.now ≡ true }
    ensures value { result ≡ requests.number_of 1 most text.now }
    ensures within { IfOk result (IsFrom 1 most) }
{
    match text.parse::<u8>() {
        Ok(n) => {
            if 1 <= n && n <= most {
                Ok(n)
            } else {
                Err(UsageCause::Value)
            }
        }
        Err(_) => Err(UsageCause::Value),
    }
}

/// The number of workers, which is 1 if it is not given.
#[tactic(auto, using(crate::proofs::TextLemmas::number_of_option))]
pub fn workers(text: Option<&str>) -> Result<u8, UsageCause>
    requires { has_form_if_given has_number_form (text_behind text) ≡ true }
    ensures value { result ≡ requests.workers_of (text_behind text.entry) }
    ensures within { IfOk result (IsFrom 1 8) }
{
    match text {
        Some(text) => count(text, MOST_WORKERS),
        None => Ok(1),
    }
}

/// The seed that the digits write.
pub fn seed(text: &str) -> Result<u64, UsageCause>
    requires { has_number_form text.now ≡ true }
    ensures { result ≡ requests.seed_of text.now }
{
    match text.parse::<u64>() {
        Ok(n) => Ok(n),
        Err(_) => Err(UsageCause::Value),
    }
}

/// The time up to which a script's boards run, which is one second if it is not given.
#[tactic(auto, using(crate::proofs::TextLemmas::time_is_short))]
pub fn until(text: Option<&str>) -> Result<Micros, UsageCause>
    ensures value { result ≡ requests.until_of (text_behind text.entry) }
    ensures within { IfOk result (λ time. time.0 ≤ 10 ^ 10) }
{
    match text {
        Some(text) => match read_time(text) {
            Ok(time) => Ok(time),
            Err(_) => Err(UsageCause::Value),
        },
        None => Ok(ONE_SECOND),
    }
}
