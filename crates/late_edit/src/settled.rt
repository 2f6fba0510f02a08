//! Whether doubts are settled for a change.
ghost use Rattle.std.specs.Prelude.{◌≡◌, ◌<◌, All, IfSome, length};
ghost use Rattle.std.specs.Bool.{OnTrue};
ghost use Rattle.line_split.specs.Layout.{IsBoarding};
ghost use Rattle.late_edit.specs.Doubts.{IsDoubt, IsSettled, row_onto};

use crate::compared::Compared;
use crate::doubts::Doubt;
use crate::lined_timetable::{Changing, LinedTimetable};
use line_split::Boarding;
use tb_base::Transfer;

// The transfer of a change onto a line where it is boarded, if there is one.
fn row_onto(
    lined: &LinedTimetable<'_>,
    from: &Changing,
    boarding: &Option<Boarding>,
) -> Option<Transfer>
    requires trip { from.now.trip < length lined.now.table.trips }
    requires boarding { IfSome boarding.now (IsBoarding lined.now.table lined.now.lines) }
    ensures { result ≡ row_onto lined.now from.now.trip from.now.at from.now.time boarding.now }
{
    match boarding {
        Some(boarding) => lined.row_onto(from, boarding),
        None => None,
    }
}

// Whether a doubt is settled for a change. Mostly there is none, so it is called and not inlined.
#[inline(never)]
fn is_settled(compared: &Compared<'_>, doubt: &Doubt, from: &Changing) -> bool
    requires trip { from.now.trip < length compared.now.before.table.trips }
    requires doubt { IsDoubt compared.now.before compared.now.after doubt.now }
    ensures { OnTrue result (IsSettled compared.now.before compared.now.after
        from.now.trip from.now.at from.now.time doubt.now) }
{
    compared.soundness();
    let old = row_onto(compared.before(), from, &doubt.old);
    let new = row_onto(compared.after(), from, &doubt.new);
    match (old, new) {
        (Some(old), Some(new)) => old == new && !compared.has_other_events(old.to_trip),
        (None, None) => true,
        _ => false,
    }
}

/// Whether all of these doubts are settled for a change.
#[inline(always)]
pub(crate) fn are_settled(compared: &Compared<'_>, doubts: &[Doubt], from: &Changing) -> bool
    requires trip { from.now.trip < length compared.now.before.table.trips }
    requires doubts { All (IsDoubt compared.now.before compared.now.after) doubts.now }
    ensures { OnTrue result (All (IsSettled compared.now.before compared.now.after
        from.now.trip from.now.at from.now.time) doubts.now) }
{
    for doubt in doubts {
        if !is_settled(compared, doubt, from) {
            return false;
        }
    }
    true
}
