ghost use Rattle.std.specs.Prelude.{◌≤ℤ◌, ◌+ℤ◌, ◌≡◌, ◌<◌, ℤ, List, pos};
ghost use Rattle.tb_base.specs.BestValues.{IsAttained, IsBest, IsNoWorse};
ghost use Rattle.tb_base.specs.Profiles.{IsProfile, IsProfileSlot, WindowData};
ghost use Rattle.tb_base.specs.Soundness.{IsSound};
ghost use Rattle.tb_base.specs.TimetableData.{TimetableData};
ghost use Rattle.tb_base.specs.declared.query.Slot.{Slot};
ghost use Rattle.tb_base.specs.declared.query.Value.{Value};

/// The profile of a window is one list.
pub fn profile_unique()
    ensures { (T : TimetableData) (W : WindowData) (us vs : List Slot) → IsProfile T W us →
        IsProfile T W vs → us ≡ vs }
{}

/// A best value with rides, than which no best value with rides a second later is no worse, is a
/// slot.
pub fn profile_slot()
    ensures { (T : TimetableData) → IsSound T → (W : WindowData) (time : ℤ) (v : Value) →
        0 < v.rides →
        IsBest T (record { from = W.from; to = W.to; leave = time }) v →
        ((w : Value) → IsBest T (record { from = W.from; to = W.to; leave = time +ℤ pos 1 }) w →
        0 < w.rides → IsNoWorse w v → ⊥) →
        W.first ≤ℤ time → time ≤ℤ W.last →
        IsProfileSlot T W (record { leave = time; arrive = v.arrive; rides = v.rides }) }
{}

/// Each slot is best at its leaving time.
pub fn slot_best()
    ensures { (T : TimetableData) (W : WindowData) (slot : Slot) → IsProfileSlot T W slot →
        IsBest T (record { from = W.from; to = W.to; leave = slot.leave })
        (record { arrive = slot.arrive; rides = slot.rides }) }
{}

/// No value with rides that is attained a second later than a slot is no worse.
pub fn slot_none_later()
    ensures { (T : TimetableData) (W : WindowData) (slot : Slot) → IsProfileSlot T W slot →
        (w : Value) →
        IsAttained T (record { from = W.from; to = W.to; leave = slot.leave +ℤ pos 1 }) w →
        0 < w.rides →
        IsNoWorse w (record { arrive = slot.arrive; rides = slot.rides }) → ⊥ }
{}
