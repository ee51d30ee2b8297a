//! Numbers as the log prints them.
use lab_num::Micros;
use std::fmt;

/// A time, shown in seconds with six digits of microseconds.
#[derive(Drop)]
pub struct Seconds(pub Micros);

impl fmt::Display for Seconds {
    ghost use Rattle.std.specs.Prelude.{Some};
    ghost use Rattle.log_text.specs.Number.{seconds};

    ghost output = { λ time. Some (seconds time.0) };

    fn fmt<W: fmt::Write>(&self, f: &mut fmt::Formatter<W>) -> fmt::Result {
        let whole = self.0.0 / 1_000_000;
        let part = self.0.0 % 1_000_000;
        write!(f, "{whole}.{part:06}")
    }
}

/// An address or a value, shown as `0x` and eight lower-case hexadecimal digits.
#[derive(Drop)]
pub struct Word(pub u32);

impl fmt::Display for Word {
    ghost use Rattle.std.specs.Prelude.{Some};
    ghost use Rattle.log_text.specs.Number.{word};

    ghost output = { λ number. Some (word number.0) };

    #[tactic(auto, using(crate::proofs::Digits::filled_eight), unfolding(crate::specs::Number::word))]
    fn fmt<W: fmt::Write>(&self, f: &mut fmt::Formatter<W>) -> fmt::Result {
        let number = self.0;
        write!(f, "0x{number:08x}")
    }
}

/// The identifier of a frame, shown as three lower-case hexadecimal digits.
#[derive(Drop)]
pub struct Identifier(pub u16);

impl fmt::Display for Identifier {
    ghost use Rattle.std.specs.Prelude.{Some};
    ghost use Rattle.log_text.specs.Number.{identifier};

    ghost output = { λ number. Some (identifier number.0) };

    #[tactic(auto, using(crate::proofs::Digits::filled_three), unfolding(crate::specs::Number::identifier))]
    fn fmt<W: fmt::Write>(&self, f: &mut fmt::Formatter<W>) -> fmt::Result {
        let number = self.0;
        write!(f, "{number:03x}")
    }
}
