//! The earliest arrival with rides at each stop so far.
ghost use Rattle.std.specs.Prelude.{◌≡◌, ◌<◌, [], IfOk, Some, length, map, replicate, set};
ghost use Rattle.reach_all.specs.Arriving.{lone, with_value};
ghost use Rattle.reach_all.specs.Reach.{values_at};

use std::alloc::Global;
use std::marker::Model;
use tb_base::{Memory, Sec, StopNo, Value};

// Arrivals by the stop where one arrives; contracts see each as a value of one ride. A row of values
// a stop would lie on the heap, and a sweep looks at each stop at each departure.
#[derive(Drop)]
pub(crate) struct Soonest {
    times: Vec<Option<Sec>>,
}

impl Model for Soonest {
    ghost use Rattle.std.specs.Prelude.{List, map};
    ghost use Rattle.tb_base.specs.declared.query.Value.{Value as ValueData};
    ghost use Rattle.reach_all.specs.Arriving.{lone};

    ghost Value = { List (List ValueData) };

    ghost view = { λ s. map lone s.times.items };
}

// The earlier of an arrival, where there is one, and that of a value of one ride.
fn sooner(time: Option<Sec>, value: &Value) -> Sec
    requires { value.now.rides ≡ 1 }
    ensures { lone (Some result) ≡ with_value (lone time) value.now }
{
    match time {
        Some(time) if time <= value.arrive => time,
        _ => value.arrive,
    }
}

// Offers a value of one ride to the stop with this number.
fn offer_at(times: &mut [Option<Sec>], stop: usize, value: &Value)
    requires stop { stop < length times.old }
    requires rides { value.now.rides ≡ 1 }
    ensures { map lone times.new ≡ set (map lone times.old) stop
        (with_value (values_at (map lone times.old) stop) value.now) }
{
    let time = sooner(times[stop], value);
    times[stop] = Some(time);
}

// No arrival, for so many stops.
fn no_times(alloc: Global, stops: usize) -> Result<Vec<Option<Sec>>, Memory>
    ensures { IfOk result (λ times. map lone times.items ≡ replicate stops []) }
{
    let mut times = Vec::new(alloc);
    for _stop in 0..stops {
        times.push(None)?;
    }
    Ok(times)
}

impl Soonest {
    // No arrival, for so many stops.
    pub(crate) fn new(alloc: Global, stops: usize) -> Result<Soonest, Memory>
        ensures { IfOk result (λ soonest. soonest ≡ replicate stops []) }
    {
        let times = no_times(alloc, stops)?;
        Ok(Soonest { times })
    }

    // Offers a value of one ride to a stop.
    pub(crate) fn offer(&mut self, stop: StopNo, value: &Value)
        requires stop { stop < length self.old }
        requires rides { value.now.rides ≡ 1 }
        ensures { self.new ≡ set self.old stop (with_value (values_at self.old stop) value.now) }
    {
        offer_at(self.times.as_mut_slice(), stop.index(), value)
    }

    // The arrivals by stops, lent.
    pub(crate) fn times(&self) -> &[Option<Sec>]
        ensures { map lone result.now ≡ self.now }
    {
        self.times.as_slice()
    }
}
