//! The rules of a journey, leg by leg.
ghost use Rattle.std.specs.Prelude.{◌≡◌, ◌<◌, ◌^◌, ◌↔◌, All, IfSome, IsNone, MatchBool, MatchOption, None, length};
ghost use Rattle.tb_base.specs.JourneyRules.{BreaksFirst, IsFirstBroken, IsJourneyless, KeepAllRules, SpellJourney};
ghost use Rattle.journey_read.specs.Known.{SharesAStop};

use super::leg_rules::broken_rule;
use tb_base::{Leg, Query, Rule, RuleBroken, StopNo, Timetable};

// Whether some stop is origin and target.
fn shares_a_stop(origins: &[StopNo], targets: &[StopNo]) -> bool
    ensures { MatchBool result (SharesAStop origins.now targets.now)
        (SharesAStop origins.now targets.now → ⊥) }
{
    origins.iter().any(|p| targets.contains(p))
}

// What no legs at all break: they end at no target, unless some origin is one.
fn fault_of_none(query: &Query) -> Option<RuleBroken>
    ensures { MatchOption result
        (SharesAStop query.now.from query.now.to)
        (λ r. (r.leg ≡ 0) × (r.rule ≡ Rule.WrongEnd) × IsJourneyless query.now) }
{
    if shares_a_stop(query.from.as_slice(), query.to.as_slice()) {
        return None;
    }
    Some(RuleBroken {
        leg: 0,
        rule: Rule::WrongEnd,
    })
}

// The first leg that breaks a rule, with that rule.
fn first_broken(table: &Timetable, query: &Query, legs: &[Leg]) -> Option<RuleBroken>
    requires { length legs.now < 2 ^ 32 }
    ensures { MatchOption result
        (KeepAllRules table.now query.now None None legs.now)
        (λ r. IsFirstBroken table.now query.now None None legs.now r.leg r.rule) }
{
    let mut previous: Option<&Leg> = None;
    let mut earlier: Option<&Leg> = None;
    for n in 0..legs.len() {
        let leg = &legs[n];
        if let Some(rule) = broken_rule(table, query, previous, earlier, leg, &legs[n + 1..]) {
            return Some(RuleBroken {
                leg: n as u32,
                rule,
            });
        }
        earlier = previous;
        previous = Some(leg);
    }
    None
}

/// The first rule that the legs break, by legs and at a leg in the order of the rules; none exactly
/// where they spell a journey of the query that leaves no earlier than asked. No legs at all spell
/// one where some stop is both origin and target, and else break the last rule at leg 0. Legs count
/// from 0. Takes no memory; one pass over the legs.
pub fn fault(table: &Timetable, query: &Query, legs: &[Leg]) -> Option<RuleBroken>
    requires origins { All (λ p. p < length table.now.stops) query.now.from }
    requires count { length legs.now < 2 ^ 32 }
    ensures none { IsNone result ↔ SpellJourney table.now query.now legs.now }
    ensures first { IfSome result (λ r. BreaksFirst table.now query.now legs.now r.leg r.rule) }
{
    table.soundness();
    if legs.is_empty() {
        return fault_of_none(query);
    }
    first_broken(table, query, legs)
}
