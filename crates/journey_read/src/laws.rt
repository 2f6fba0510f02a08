//! A law of verdicts.
ghost use Rattle.std.specs.Prelude.{◌≡◌, ◌<◌, All, length};
ghost use Rattle.tb_base.specs.BestValues.{ChoiceData, QueryData};
ghost use Rattle.tb_base.specs.Soundness.{IsSound};
ghost use Rattle.tb_base.specs.TimetableData.{TimetableData};
ghost use Rattle.journey_read.specs.Judging.{IsVerdict};
ghost use Rattle.journey_read.specs.declared.verdict.Verdict.{Verdict};

/// A claim has one verdict.
pub fn one_verdict()
    ensures { (T : TimetableData) (Q : QueryData) (claimed : ChoiceData) (v w : Verdict) →
        IsSound T → All (λ p. p < length T.stops) Q.from →
        IsVerdict T Q claimed v → IsVerdict T Q claimed w → v ≡ w }
{}
