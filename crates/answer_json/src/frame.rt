//! How values stand together, and times.
ghost use Rattle.std.specs.Prelude.{◌≡◌, ◌++◌, OnOk};
ghost use Rattle.answer_json.specs.Frames.{between, closing, moment, nothing, opening};

use answer_text::Text;
use tb_base::{Memory, Sec};

/// How values stand one behind the other.
#[derive(Clone, Copy, Debug, PartialEq, Eq)]
pub enum Frame {
    /// Each in a line, and no line where there is none.
    Lines,
    /// In an array.
    Array,
}

impl Frame {
    /// What stands for no value.
    pub fn nothing(self) -> &'static [u8]
        ensures { result.now ≡ nothing self }
    {
        match self {
            Frame::Lines => b"".as_slice(),
            Frame::Array => b"[]".as_slice(),
        }
    }

    /// What stands before the first value.
    pub fn opening(self) -> &'static [u8]
        ensures { result.now ≡ opening self }
    {
        match self {
            Frame::Lines => b"".as_slice(),
            Frame::Array => b"[".as_slice(),
        }
    }

    /// What stands between two values.
    pub fn between(self) -> &'static [u8]
        ensures { result.now ≡ between self }
    {
        match self {
            Frame::Lines => b"\n".as_slice(),
            Frame::Array => b",".as_slice(),
        }
    }

    /// What stands behind the last value.
    pub fn closing(self) -> &'static [u8]
        ensures { result.now ≡ closing self }
    {
        match self {
            Frame::Lines => b"\n".as_slice(),
            Frame::Array => b"]".as_slice(),
        }
    }
}

/// Adds a time under a name that needs no escapes, as the texts show it, and beside it in seconds:
/// `"NAME":"HH:MM:SS","NAME_seconds":N`.
pub fn add_moment(text: &mut Text, name: &[u8], time: Sec) -> Result<(), Memory>
    ensures { OnOk result (text.new ≡ text.old ++ moment name.now time) }
{
    text.add(b"\"")?;
    text.add(name)?;
    text.add(b"\":\"")?;
    text.time(time)?;
    text.add(b"\",\"")?;
    text.add(name)?;
    text.add(b"_seconds\":")?;
    text.seconds(time)
}
