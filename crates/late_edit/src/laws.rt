//! Laws over touched trips.
ghost use Rattle.std.specs.Prelude.{◌≡◌, ℕ, false};
ghost use Rattle.line_split.specs.LinesData.{LinesData};
ghost use Rattle.tb_base.specs.Transfers.{kept_hops};
ghost use Rattle.late_edit.specs.Updated.{IsUpdated};
ghost use Rattle.late_edit.specs.Touched.{is_touched};

/// Where two timetables differ in times and marks alone, the reduction keeps the same hops of each trip that
/// isn't touched.
pub fn untouched_kept()
    ensures { (L M : LinesData) (t i : ℕ) →
        IsUpdated L.table M.table → is_touched L M t ≡ false →
        kept_hops L.table L.lines t i ≡ kept_hops M.table M.lines t i }
{}
