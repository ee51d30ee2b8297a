//! The reservations of the harts that share a memory (RISC-V Unprivileged ISA 20191213, section
//! 8.2).
ghost use Rattle.std.specs.Prelude.{◌≡◌, ◌+◌, ◌<◌, ◌≤◌, None, length, map, replicate, slice_set, true};
ghost use Rattle.std.specs.List.{list_all};
ghost use Rattle.std.specs.Option.{is_none};
ghost use Rattle.rv_exec.specs.declared.fetched.Fetched.{Fetched};
ghost use Rattle.rv_atomic.specs.Laws.{EndsNone};
ghost use Rattle.rv_atomic.specs.Watch.{after_store, kept, reaches, reserved};

use rv_hart::MOST_HARTS;
use std::marker::Model;

/// The reservations of one to four harts: for each the address of the word that it has reserved, or
/// none.
#[derive(Drop)]
pub struct Watch {
    harts: u8,
    /// Those of the harts that there are come first.
    words: [Option<u32>; MOST_HARTS],
}

impl Model for Watch {
    ghost use Rattle.std.specs.Prelude.{◌≡◌, ℕ, ◌≤◌, List, Option, length, take};

    ghost Value = { List (Option ℕ) };

    ghost view = { λ w. take w.harts w.words };

    ghost invariant = { λ w. (w.harts ≤ 4) × (length w.words ≡ 4) };
}

/// Whether one of so many bytes from an address on is a byte of the word.
fn reaches(at: u32, width: u8, word: u32) -> bool
    ensures { result ≡ reaches at width word }
{
    let (at, word) = (u64::from(at), u64::from(word));
    at < word + 4 && word < at + u64::from(width)
}

/// What a store of so many bytes by another hart leaves of a reservation.
fn kept(at: u32, width: u8, word: Option<u32>) -> Option<u32>
    ensures { result ≡ kept at width word }
{
    match word {
        Some(word) if reaches(at, width, word) => None,
        _ => word,
    }
}

/// What such a store leaves of each reservation.
fn all_kept(at: u32, width: u8, words: [Option<u32>; MOST_HARTS]) -> [Option<u32>; MOST_HARTS]
    ensures { result ≡ map (kept at width) words }
{
    words.map(|word| kept(at, width, word))
}

/// Whether none of them reserves a word.
fn are_none(words: &[Option<u32>]) -> bool
    ensures { result ≡ list_all is_none words.now }
{
    words.iter().all(|word| word.is_none())
}

impl Watch {
    /// No reservations of so many harts, one to four.
    pub fn new(harts: u8) -> Watch
        requires some { 1 ≤ harts }
        requires most { harts ≤ 4 }
        ensures { result ≡ replicate harts None }
    {
        Watch {
            harts,
            words: [None; MOST_HARTS],
        }
    }

    /// How many harts there are.
    pub fn harts(&self) -> u8
        ensures value { result ≡ length self.now }
        ensures most { result ≤ 4 }
    {
        self.harts
    }

    /// The address of the word that a hart has reserved. `None` exactly where it has reserved none.
    pub fn reserved(&self, hart: u8) -> Option<u32>
        requires { hart < length self.now }
        ensures { result ≡ reserved self.now hart }
    {
        self.words[hart as usize]
    }

    /// Whether no hart has reserved a word, so that there is none that a store could end.
    pub fn is_clear(&self) -> bool
        ensures value { result ≡ list_all is_none self.now }
        ensures plain { result ≡ true → (what : Fetched) → EndsNone self.now what }
    {
        are_none(&self.words[..usize::from(self.harts)])
    }

    /// Sets the reservation of a hart, in place of an earlier one, or ends it.
    pub fn put(&mut self, hart: u8, word: Option<u32>)
        requires { hart < length self.old }
        ensures { self.new ≡ slice_set self.old hart word }
    {
        self.words[hart as usize] = word;
    }

    /// Ends all reservations.
    pub fn clear(&mut self)
        ensures { self.new ≡ replicate (length self.old) None }
    {
        self.words = [None; MOST_HARTS];
    }

    /// A hart has stored so many bytes from an address on: the other harts' reservations of words
    /// with such a byte end, and its own stays.
    pub fn stored(&mut self, hart: u8, at: u32, width: u8)
        requires { hart < length self.old }
        ensures { self.new ≡ after_store hart at width self.old }
    {
        let own = self.words[hart as usize];
        self.words = all_kept(at, width, self.words);
        self.words[hart as usize] = own;
    }
}
