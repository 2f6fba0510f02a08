//! A text that grows.
ghost use Rattle.std.specs.Prelude.{◌≡◌, ◌++◌, [], OnErr, OnOk};
ghost use Rattle.std.specs.Fmt.{decimal, signed_decimal};
ghost use Rattle.tb_base.specs.Clock.{time_text};

use std::alloc::Global;
use std::marker::Model;
use tb_base::{Memory, Sec, add_time};

/// A text that grows at its end, seen as its bytes. What adds to it is refused only for want of
/// memory.
#[derive(Drop)]
pub struct Text {
    bytes: Vec<u8>,
    alloc: Global,
}

impl Model for Text {
    ghost use Rattle.std.specs.Prelude.{List, ℕ};

    ghost Value = { List ℕ };

    ghost view = { λ t. t.bytes.items };
}

impl Text {
    /// No bytes.
    pub fn new(alloc: Global) -> Text
        ensures { result ≡ [] }
    {
        Text {
            bytes: Vec::new(alloc),
            alloc,
        }
    }

    /// The bytes, to keep.
    pub fn into_bytes(self) -> Vec<u8>
        ensures { result.items ≡ self }
    {
        self.bytes
    }

    /// Adds bytes. A refusal leaves the text as it was.
    pub fn add(&mut self, bytes: &[u8]) -> Result<(), Memory>
        ensures added { OnOk result (self.new ≡ self.old ++ bytes.now) }
        ensures refused { OnErr result (self.new ≡ self.old) }
    {
        match self.bytes.extend_from_slice(bytes) {
            Ok(()) => Ok(()),
            Err(_) => Err(Memory),
        }
    }

    /// Adds a count in decimal digits. A refusal leaves the text as it was.
    pub fn count(&mut self, n: u64) -> Result<(), Memory>
        ensures added { OnOk result (self.new ≡ self.old ++ decimal n) }
        ensures refused { OnErr result (self.new ≡ self.old) }
    {
        match format!(in self.alloc; "{n}") {
            Ok(digits) => self.add(digits.as_bytes()),
            Err(_) => Err(Memory),
        }
    }

    /// Adds a number in decimal digits. A refusal leaves the text as it was.
    pub fn number(&mut self, n: u32) -> Result<(), Memory>
        ensures added { OnOk result (self.new ≡ self.old ++ decimal n) }
        ensures refused { OnErr result (self.new ≡ self.old) }
    {
        self.count(u64::from(n))
    }

    /// Adds seconds in decimal digits, after `-` where they are below 0.
    pub fn seconds(&mut self, time: Sec) -> Result<(), Memory>
        ensures { OnOk result (self.new ≡ self.old ++ signed_decimal time) }
    {
        match format!(in self.alloc; "{time}") {
            Ok(digits) => self.add(digits.as_bytes()),
            Err(_) => Err(Memory),
        }
    }

    /// Adds a time, in seconds from noon minus twelve hours, as `time_text` shows it.
    pub fn time(&mut self, time: Sec) -> Result<(), Memory>
        ensures { OnOk result (self.new ≡ self.old ++ time_text time) }
    {
        add_time(self.alloc, &mut self.bytes, time)
    }
}
