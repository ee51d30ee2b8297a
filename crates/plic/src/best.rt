//! The source that a context would claim.
ghost use Rattle.std.specs.Prelude.{◌≡◌, ◌+◌, ◌<◌, ◌≤◌};
ghost use Rattle.plic.specs.Claim.{claim, is_ready};
ghost use Rattle.plic.specs.Inner.Best.{IsBest};

use crate::sources::has;
use crate::state::PlicState;

/// Whether a source is pending and enabled in a context.
fn is_ready(state: &PlicState, context: usize, source: u8) -> bool
    requires { context < 15 }
    ensures { result ≡ is_ready state.now context source }
{
    let number = u32::from(source);
    has(state.pending, number) && has(state.enables[context], number)
}

/// A source and its priority; both are 0 for none.
#[derive(Clone, Copy)]
pub struct Best {
    pub source: u8,
    pub priority: u8,
}

impl Best {
    /// The better of this and a further source.
    #[tactic(auto, using(crate::proofs::BestLemmas::best_taken, crate::proofs::BestLemmas::best_kept))]
    fn or(self, state: &PlicState, context: usize, source: u8) -> Best
        requires context { context < 15 }
        requires at_least { 1 ≤ source }
        requires source { source < 128 }
        requires so_far { IsBest state.now context source self.source self.priority }
        ensures { IsBest state.now context (source + 1) result.source result.priority }
    {
        let priority = state.priorities[usize::from(source)];
        if priority <= self.priority {
            return self;
        }
        if !is_ready(state, context, source) {
            return self;
        }
        Best { source, priority }
    }
}

/// Of the sources 1 to n that are ready, the one of the greatest priority, and of several the one
/// of the least number.
#[tactic(auto, using(crate::proofs::BestLemmas::best_none))]
pub fn best_ready(state: &PlicState, n: u8, context: usize) -> Best
    requires sources { n < 128 }
    requires context { context < 15 }
    ensures { IsBest state.now context (n + 1) result.source result.priority }
{
    let mut best = Best {
        source: 0,
        priority: 0,
    };
    for source in 1..n + 1 {
        best = best.or(state, context, source);
    }
    best
}

/// The source that a context would claim, or 0 where there is none.
#[tactic(auto, using(crate::proofs::BestLemmas::best_lemmas))]
pub fn source_to_claim(state: &PlicState, n: u8, context: usize) -> u8
    requires sources { n < 128 }
    requires context { context < 15 }
    ensures source { result ≡ claim n state.now context }
    ensures within { result < 128 }
{
    best_ready(state, n, context).source
}
