//! Marks whose floors come to their end.
use segment_queue::Marks;
use std::test::*;
use tb_base::TripNo;

// Words of 32 bits hold at most 429 floors that lie 10,000,000 apart, so among a thousand searches
// all words are written anew at least twice, whichever floor is the first.
#[test]
fn no_mark_outlives_a_beginning(rt: HostRuntime) -> Result<(), Fail> {
    let trip = TripNo(0);
    let mut marks = Marks::new(rt.alloc());
    marks.make_room(1)?;
    for turn in 0..1_000 {
        let at = if turn % 2 == 0 { turn } else { 9_999_999 };
        assert!(rt; marks.trips() > 0);
        assert_eq!(rt; marks.get(trip), None);
        assert!(rt; marks.set(trip, at));
        assert_eq!(rt; marks.get(trip), Some(at));
        marks.begin();
    }
    Ok(())
}
