//! Calls in eight bytes.
ghost use Rattle.std.specs.Prelude.{◌≡◌, ◌<◌};
ghost use Rattle.transfer_pack.specs.CallsOf.{call_of};
ghost use Rattle.transfer_pack.specs.PackedCalls.{spot_call};

use super::calls::Call;
use tb_base::{Event, Sec, StopNo};

// A call in eight bytes: twice the number of its stop, and one more where one may alight there; and
// its arrival.
#[derive(Clone, Copy)]
pub(crate) struct PackedCall {
    stop_twice: u32,
    arr: Sec,
}

// What stands where there is no call.
pub(crate) const NO_PACKED_CALL: PackedCall = PackedCall {
    stop_twice: 0,
    arr: 0,
};

impl PackedCall {
    // The packed call of an event.
    pub(crate) fn of(event: &Event) -> PackedCall
        requires { event.now.stop < 100000 }
        ensures { spot_call result ≡ call_of event.now }
    {
        let stop_twice = 2 * event.stop.0;
        PackedCall {
            stop_twice: if event.alight {
                stop_twice + 1
            } else {
                stop_twice
            },
            arr: event.arr,
        }
    }

    // The call.
    pub(crate) fn call(&self) -> Call
        ensures { result ≡ spot_call self.now }
    {
        Call {
            stop: StopNo(self.stop_twice / 2),
            arr: self.arr,
            alight: self.stop_twice % 2 == 1,
        }
    }
}
