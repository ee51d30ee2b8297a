//! Laws, each the contract of a function that does nothing.
ghost use Rattle.rv_atomic.specs.History.{ReservationsStay, SuccessNeedsReservation};
ghost use Rattle.rv_atomic.specs.Laws.{PlainAlone};

pub use crate::decoder::{atomic_rows_differ, atomic_words_mean_no_other};

/// An SC that succeeds comes after an LR of its hart for the same word, and no other hart has stored
/// in that word since.
pub fn success_needs_reservation()
    ensures { SuccessNeedsReservation }
{}

/// A reservation stays while no other hart stores in its word, and its own hart does no LR and no SC.
pub fn reservations_stay()
    ensures { ReservationsStay }
{}

/// With one hart each step but an atomic instruction is `perform`, and the reservation stays.
pub fn alone_as_performed()
    ensures { PlainAlone }
{}
