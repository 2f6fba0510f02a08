//! Who publishes for a process that lives.
ghost use Rattle.std.specs.Prelude.{◌≡◌, ◌⊎◌, ◌∷◌, [], ◌++◌, ◌<◌, ◌-◌, ◌^◌, IfErr, IfOk, OnOk, Some, length, option_to_list};
ghost use Rattle.edition_build.specs.Plans.{day_after};

use edition_build::{PlanItem, keep_day};
use edition_store::{Last, Naming, Publisher, Shared};
use std::sync::Wait;
use tb_base::{Gate, Memory, Work};

/// The list that is left of one who publishes no more.
pub(crate) trait Ends {
    ghost use Rattle.std.specs.Prelude.{List};
    ghost use Rattle.edition_store.specs.Editions.{EditionData};

    ghost list: { Self → List EditionData };
}

impl<J: Naming> Ends for Last<J> {
    ghost list = { λ l. l };
}

/// Who publishes editions of a list, of which an `E` is left. What follows a plan is proved for any
/// such types, since the proof of a closure goes through each part of each type that it names.
pub(crate) trait Issues<E: Ends> {
    ghost use Rattle.std.specs.Prelude.{List};
    ghost use Rattle.edition_store.specs.Editions.{EditionData};

    ghost list: { Self → List EditionData };

    /// How many editions were published.
    fn number(&self) -> u32
        ensures { result ≡ length (list self.now) };

    /// Appends the edition to the list. At a refusal, for want of memory, the list ends with it.
    fn with_edition<R: Wait>(self, rt: &R, edition: Shared) -> Result<Self, E>
        requires { length (list self) < 2 ^ 32 - 1 }
        ensures list { IfOk result (λ p. list p ≡ list self ++ edition ∷ []) }
        ensures refused { IfErr result (λ l. E.list l ≡ list self ++ edition ∷ []) };

    /// Ends the list.
    fn end<R: Wait>(self, rt: &R) -> E
        ensures { E.list result ≡ list self };
}

impl<J: Naming> Issues<Last<J>> for Publisher<J> {
    ghost list = { λ p. p };

    fn number(&self) -> u32 {
        self.count()
    }

    fn with_edition<R: Wait>(self, rt: &R, edition: Shared) -> Result<Publisher<J>, Last<J>> {
        match self.publish(rt, edition) {
            Ok((publisher, receipt)) => {
                drop(receipt);
                Ok(publisher)
            }
            Err(refused) => Err(refused.end(rt)),
        }
    }

    fn end<R: Wait>(self, rt: &R) -> Last<J> {
        self.finish(rt)
    }
}

// Publishes the edition of item i. The gate is told just before and right after.
fn issue<P: Issues<E>, E: Ends, G: Gate, R: Wait>(
    rt: &R,
    gate: &G,
    i: u32,
    edition: Shared,
    publisher: P,
) -> Result<P, E>
    requires { length (P.list publisher) < 2 ^ 32 - 1 }
    ensures list { IfOk result (λ p. P.list p ≡ P.list publisher ++ edition ∷ []) }
    ensures refused { IfErr result (λ l. E.list l ≡ P.list publisher ++ edition ∷ []) }
{
    gate.begin(Work::Publication(i));
    let published = publisher.with_edition(rt, edition);
    gate.done(Work::Publication(i));
    published
}

/// Publishes the edition that item i was found to have, where it has one. That of a day is kept as
/// the last day's. Refused only for want of memory: the list is as before, or ends with the
/// edition.
pub(crate) fn issue_found<P: Issues<E>, E: Ends, G: Gate, R: Wait>(
    rt: &R,
    gate: &G,
    i: u32,
    item: &PlanItem,
    edition: Option<Shared>,
    day: &mut Shared,
    publisher: P,
) -> Result<P, E>
    requires { length (P.list publisher) < 2 ^ 32 - 1 }
    ensures list { IfOk result (λ p. P.list p ≡ P.list publisher ++ option_to_list edition) }
    ensures refused { IfErr result (λ l. (E.list l ≡ P.list publisher)
        ⊎ (E.list l ≡ P.list publisher ++ option_to_list edition)) }
    ensures day { OnOk result
        (day_after (Some day.old) item.now.source (option_to_list edition) ≡ Some day.new) }
{
    let Some(edition) = edition else {
        return Ok(publisher);
    };
    match keep_day(&item.source, &edition, day) {
        Ok(()) => issue(rt, gate, i, edition, publisher),
        Err(Memory) => {
            drop(edition);
            Err(publisher.end(rt))
        }
    }
}
