ghost use Rattle.std.specs.Prelude.{◌≡◌, ◌<◌, ℕ, [], List, All, Contains, None, length};
ghost use Rattle.tb_base.specs.BestValues.{QueryData};
ghost use Rattle.tb_base.specs.JourneyRules.{BreaksFirst, KeepAllRules, SpellJourney};
ghost use Rattle.tb_base.specs.Soundness.{IsSound};
ghost use Rattle.tb_base.specs.TimetableData.{TimetableData};
ghost use Rattle.tb_base.specs.declared.query.Leg.{Leg};
ghost use Rattle.tb_base.specs.declared.rule.Rule.{Rule};

/// Legs that keep all rules spell a journey; with no leg some stop must be origin and target.
pub fn journey_from_rules()
    ensures { (T : TimetableData) (Q : QueryData) (legs : List Leg) →
        KeepAllRules T Q None None legs →
        (legs ≡ [] → (p : ℕ) × Contains Q.from p × Contains Q.to p) → SpellJourney T Q legs }
{}

/// Legs that spell a journey keep all rules; with no leg some stop is origin and target.
pub fn rules_from_journey()
    ensures { (T : TimetableData) (Q : QueryData) → IsSound T → (legs : List Leg) →
        All (λ p. p < length T.stops) Q.from →
        SpellJourney T Q legs → KeepAllRules T Q None None legs × (legs ≡ [] →
        (p : ℕ) × Contains Q.from p × Contains Q.to p) }
{}

/// Legs that break a rule spell no journey.
pub fn first_broken_spells_none()
    ensures { (T : TimetableData) (Q : QueryData) → IsSound T → (legs : List Leg) →
        All (λ p. p < length T.stops) Q.from →
        (n : ℕ) (rule : Rule) → BreaksFirst T Q legs n rule → SpellJourney T Q legs → ⊥ }
{}
