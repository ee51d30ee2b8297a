//! Laws, each the contract of a function that does nothing.
ghost use Rattle.plic.specs.Laws.{
  AwaitsCompletion,
  ClaimsTheChosen,
  ClaimsWhatIsThere,
  HasWhatPasses,
  OutputsApart,
  SameSets,
  SamplesOnce,
  StaysShut,
};

/// In the set that a test gives is what passes it, and sets with the same sources are one.
pub fn sets_have_what_passes()
    ensures passes { HasWhatPasses }
    ensures same { SameSets }
{}

/// A second sample of the same lines changes nothing.
pub fn second_samples_change_nothing()
    ensures { SamplesOnce }
{}

/// A gateway that is shut stays shut until its source is completed.
pub fn gateways_await_completion()
    ensures { StaysShut }
{}

/// A claimed source whose gateway is shut is not pending again before its completion, whatever its
/// line does.
pub fn claimed_sources_await_completion()
    ensures { AwaitsCompletion }
{}

/// A context claims a source that is pending and enabled in it, of the greatest priority, and of
/// several the one of the least number. It claims 0 only where there is none.
pub fn claims_take_the_greatest_priority()
    ensures chosen { ClaimsTheChosen }
    ensures none { ClaimsWhatIsThere }
{}

/// The output to a context depends on nothing of another context.
pub fn outputs_are_apart()
    ensures { OutputsApart }
{}
