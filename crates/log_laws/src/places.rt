//! Where in the bytes of a run its reads and its calls on the store stand, and what its saves have kept.
ghost use Rattle.std.specs.Prelude.{◌≡◌, ℕ, List, length, map};
ghost use Rattle.lab_io.specs.Held.{Held};
ghost use Rattle.lab_top.specs.Headline.{calls, kept_by};
ghost use Rattle.lab_top.specs.Transcript.{Read, Use, transcript};
ghost use Rattle.log_laws.specs.Places.{Rises};

/// What is kept at the end of a run is what its saves have put, each under its name, in their order;
/// under other names all is as it was before the run.
pub fn saves_are_kept()
    ensures { (words : List (List ℕ)) (held kept : Held) →
        (transcript words held kept).kept ≡ kept_by kept (calls (transcript words held kept).uses) }
{}

/// A read never comes before an earlier one, nor a call on the store, and each comes before the last
/// byte or after it: the numbers of bytes that stand before them do not fall, and none is above that
/// of all bytes.
pub fn places_rise()
    ensures reads { (words : List (List ℕ)) (held kept : Held) →
        Rises 0 (map (λ (read : Read). read.before) (transcript words held kept).reads)
        (length (transcript words held kept).bytes) }
    ensures uses { (words : List (List ℕ)) (held kept : Held) →
        Rises 0 (map (λ (made : Use). made.before) (transcript words held kept).uses)
        (length (transcript words held kept).bytes) }
{}
