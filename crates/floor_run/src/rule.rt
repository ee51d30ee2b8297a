//! The rule of the bench, and what each step tells. These types are for the proofs alone.
use crate::view::View;
use atomic_table::{Join, Play, Split, TableRule};
use floor_core::Job;
use std::snapshot::Snapshot;

/// The rule of the bench whose starts are the key.
pub struct BenchRule;

impl<J: Job> TableRule<Option<J>, View<J>, Snapshot<Vec<J>>> for BenchRule {
    ghost use Rattle.floor_run.specs.Rule.{Rule};
    ghost use Rattle.floor_run.specs.Turns.{slots_left, AfterTurns};
    ghost use Rattle.floor_run.specs.View.{fresh};

    ghost holds = { λ key.
        Rule (slots_left J.meaning) (AfterTurns J.meaning J.sent J.state_after) key.value.items };

    ghost first = { λ key. fresh key.value.items };
}

/// A claim, which wins or misses.
pub struct Claim;

impl<J: Job> Play<Option<J>, View<J>> for Claim {
    ghost use Rattle.floor_run.specs.Inner.Steps.{claims};
    ghost use Rattle.floor_run.specs.Turns.{slots_left, AfterTurns};

    ghost then = { claims (slots_left J.meaning) (AfterTurns J.meaning J.sent J.state_after) };
}

/// A report.
pub struct Report;

impl<J: Job> Play<Option<J>, View<J>> for Report {
    ghost use Rattle.floor_run.specs.Inner.Steps.{reports};
    ghost use Rattle.floor_run.specs.Turns.{slots_left};

    ghost then = { reports (slots_left J.meaning) };
}

/// A further seat, which holds nothing.
pub struct Further;

impl<J> Split<View<J>> for Further {
    ghost use Rattle.floor_run.specs.View.{empty_handed};

    ghost left = { λ v. v };

    ghost right = { empty_handed };
}

/// A seat that takes in another, which is spent.
pub struct TakesIn;

impl<J> Join<View<J>> for TakesIn {
    ghost use Rattle.floor_run.specs.View.{spent};

    ghost both = { λ v w. v };

    ghost spent = { spent };
}
