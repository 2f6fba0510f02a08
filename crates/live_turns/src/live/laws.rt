//! Laws over all runs of turns.
ghost use Rattle.live_turns.specs.LiveTurns.{CutTurnsAreOneRun, TurnsAreOneRun};

use crate::live::saying::LiveMode;

/// Turns are one run: over a list that begins with the editions that are known in the end, the text
/// has for each line in order its right reply by an edition of the list, and the editions never go
/// back; news are told in between. With a fault that is so of some first lines.
pub(crate) fn turns_are_one_run()
    ensures whole { (mode : LiveMode) → TurnsAreOneRun mode }
    ensures cut { (mode : LiveMode) → CutTurnsAreOneRun mode }
{}
