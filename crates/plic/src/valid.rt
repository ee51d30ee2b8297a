//! Which states a PLIC can have: what is absent is 0.
ghost use Rattle.std.specs.Prelude.{◌≡◌, ◌<◌, ◌≤◌, ◌↔◌, All, IsTrue};
ghost use Rattle.plic.specs.State.{AreEnables, ArePriorities, AreThresholds, IsPlicState};
ghost use Rattle.plic.specs.Sources.{AreSources};

use crate::sources::all_sources;
use crate::state::PlicState;

/// The greatest priority and the greatest threshold.
const MOST: u8 = 7;

fn are_levels(levels: &[u8]) -> bool
    ensures { IsTrue result ↔ All (λ x. x ≤ 7) levels.now }
{
    levels.iter().all(|&level| level <= MOST)
}

fn are_zero(bytes: &[u8]) -> bool
    ensures { IsTrue result ↔ All (λ x. x ≡ 0) bytes.now }
{
    bytes.iter().all(|&byte| byte == 0)
}

fn are_empty(sets: &[u128]) -> bool
    ensures { IsTrue result ↔ All (λ x. x ≡ 0) sets.now }
{
    sets.iter().all(|&set| set == 0)
}

fn are_sources(set: u128, n: u32) -> bool
    requires { n < 128 }
    ensures { IsTrue result ↔ AreSources n set }
{
    set & all_sources(n) == set
}

fn are_all_sources(sets: &[u128], n: u32) -> bool
    requires { n < 128 }
    ensures { IsTrue result ↔ All (AreSources n) sets.now }
{
    sets.iter().all(|&set| are_sources(set, n))
}

fn are_priorities(priorities: &[u8; 128], n: usize) -> bool
    requires { n < 128 }
    ensures { IsTrue result ↔ ArePriorities n priorities.now }
{
    are_levels(priorities) && priorities[0] == 0 && are_zero(&priorities[n + 1..])
}

fn are_enables(enables: &[u128; 15], n: u32, contexts: usize) -> bool
    requires sources { n < 128 }
    requires contexts { contexts ≤ 15 }
    ensures { IsTrue result ↔ AreEnables n contexts enables.now }
{
    are_all_sources(enables, n) && are_empty(&enables[contexts..])
}

fn are_thresholds(thresholds: &[u8; 15], contexts: usize) -> bool
    requires { contexts ≤ 15 }
    ensures { IsTrue result ↔ AreThresholds contexts thresholds.now }
{
    are_levels(thresholds) && are_zero(&thresholds[contexts..])
}

/// Whether a PLIC of the sources 1 to n and of so many contexts can have a state.
pub fn is_valid(state: &PlicState, n: u32, contexts: usize) -> bool
    requires sources { n < 128 }
    requires contexts { contexts ≤ 15 }
    ensures { IsTrue result ↔ IsPlicState n contexts state.now }
{
    are_sources(state.pending, n)
        && are_sources(state.shut, n)
        && are_priorities(&state.priorities, n as usize)
        && are_enables(&state.enables, n, contexts)
        && are_thresholds(&state.thresholds, contexts)
}
