//! Why the program ends early.
use tb_base::Memory;

/// Why the program ends before its last part is done, or with something wrong. All but a want of
/// memory has been written.
#[derive(Clone, Copy, PartialEq, Eq, Debug)]
pub enum Stopped {
    /// Something is wrong.
    Wrong,
    /// A feed has no timetable of its day.
    NoTimetable,
    Memory,
}

impl Stopped {
    /// The number with which the program ends.
    pub fn code(self) -> u8 {
        match self {
            Stopped::Wrong => 1,
            Stopped::NoTimetable => 3,
            Stopped::Memory => 6,
        }
    }
}

impl From<Memory> for Stopped {
    fn from(_memory: Memory) -> Stopped {
        Stopped::Memory
    }
}
