//! Two feeds made by hand.
use crate::reading::{Unread, timetable};
use feed_maker::Feed;
use std::alloc::Global;
use tb_base::Timetable;

// At B and at D no change is allowed but by the footpath.
const TOWN: Feed<'static> = Feed {
    stops: "stop_id,location_type,parent_station\nA,,\nB,,S\nC,,S\nD,,\nS,1,\n",
    trips: "service_id,trip_id\nS,T\nS,U\nS,V\nS,W\n",
    times: "trip_id,stop_sequence,stop_id,arrival_time,departure_time,pickup_type,drop_off_type
T,1,A,08:00:00,,,1
T,2,B,08:10:00,08:11:00,,
T,3,C,08:20:00,,1,
U,1,C,08:12:00,,,1
U,2,D,08:30:00,,1,
V,1,A,08:01:40,,,1
V,2,B,08:03:20,,1,1
V,3,D,08:36:40,,1,
W,1,C,08:20:30,,,1
W,2,D,08:35:00,,1,
",
    transfers: "from_stop_id,to_stop_id,transfer_type,min_transfer_time
A,A,2,60
B,B,3,
C,C,2,30
D,D,3,
B,C,2,120
",
};

const RING: Feed<'static> = Feed {
    stops: "stop_id\nA\nB\nC\nD\nE\nF\n",
    trips: "service_id,trip_id\nS,r1\nS,r2\nS,r3\nS,x\nS,y\nS,z\n",
    times: "trip_id,stop_sequence,stop_id,arrival_time,departure_time,pickup_type,drop_off_type
r1,1,A,08:00:00,,,
r1,2,B,08:10:00,,,
r1,3,C,08:20:00,,,
r1,4,B,08:30:00,,,
r1,5,D,08:40:00,,,
r2,1,A,08:30:00,,,
r2,2,B,08:40:00,,,
r2,3,C,08:50:00,,,
r2,4,B,09:00:00,,,
r2,5,D,09:10:00,,,
r3,1,A,08:32:00,,,
r3,2,B,08:38:00,,,
r3,3,C,08:45:00,,,
r3,4,B,08:52:00,,,
r3,5,D,08:58:00,,,
x,1,C,08:21:00,,,
x,2,A,08:35:00,,,1
x,3,E,08:45:00,,1,
x,4,C,08:55:00,,,
x,5,F,09:05:00,,,
y,1,E,08:16:00,,,
y,2,F,08:50:00,,,
z,1,D,08:45:00,,,
z,2,B,09:05:00,,,
z,3,C,09:15:00,,,
",
    transfers: "from_stop_id,to_stop_id,transfer_type,min_transfer_time
B,B,2,120
C,C,2,60
B,E,2,300
E,B,2,420
D,F,2,720
",
};

/// Four stops, A to D, with change times at A and C and a footpath from B to C; the station S of B
/// and C; and four trips, T from A over B to C, U and W from C to D, and V from A past B to D.
pub fn town(alloc: Global) -> Result<Timetable, Unread> {
    timetable(alloc, TOWN)
}

/// Six stops, A to F, with footpaths from B to E and back and from D to F. A ring through B twice,
/// three times a day, of which the last overtakes; a trip that is at C twice, where one may not
/// alight at A nor board at E; one that is only reached on foot; and one back from D.
pub fn ring(alloc: Global) -> Result<Timetable, Unread> {
    timetable(alloc, RING)
}
