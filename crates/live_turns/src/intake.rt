//! A source, piece by piece.
ghost use Rattle.std.specs.Prelude.{◌≡◌, ◌⊎◌, ◌-◌, ◌^◌, ◌<◌, [], ℕ, List, Err, IfOk, vec_len};
ghost use Rattle.std.specs.Io.KnownBytes.{Consumes};
ghost use Rattle.text_lines.specs.Lines.{last_line};
ghost use Rattle.live_turns.specs.Intakes.{ComeNext, Comes};
ghost use Rattle.live_turns.specs.declared.intake.IntakeFault.TheVariants as fault;

use crate::cutting::{last, take_lines};
use std::alloc::Global;
use std::marker::Model;
use tb_base::{Memory, Name};
use tb_io::Source;

/// Why no lines come.
#[derive(Debug, Clone, Copy, PartialEq, Eq)]
pub enum IntakeFault {
    /// The source failed.
    ReadFault,
    /// Want of memory.
    Memory,
}

/// What takes a source piece by piece, with what is kept of the line that is begun.
#[derive(Drop)]
pub struct Intake {
    alloc: Global,
    most: usize,
    begun: Vec<u8>,
    room: Vec<u8>,
}

impl Model for Intake {
    ghost use Rattle.std.specs.Prelude.{◌<◌, ◌≤◌, length, vec_len};
    ghost use Rattle.live_turns.specs.Intakes.{IntakeData};

    ghost Value = { IntakeData };

    ghost view = { λ i. record {
      most = i.most;
      room = vec_len i.room;
      begun = i.begun.items;
    } };

    ghost invariant = { λ i. (length i.begun.items ≤ i.most) × (0 < length i.room.items) };
}

// A buffer of a length.
fn zeros(alloc: Global, len: usize) -> Result<Vec<u8>, Memory>
    ensures { IfOk result (λ v. vec_len v ≡ len) }
{
    match vec![in alloc; 0; len] {
        Ok(room) => Ok(room),
        Err(_) => Err(Memory),
    }
}

impl Intake {
    /// One that takes pieces of at most so many bytes, and keeps at most so many bytes of a line.
    /// Refused only for want of memory.
    pub fn new(alloc: Global, most: usize, piece: usize) -> Result<Intake, Memory>
        requires { 0 < piece }
        ensures { IfOk result (λ i. i ≡ record { most = most; room = piece; begun = [] }) }
    {
        Ok(Intake {
            alloc,
            most,
            begun: Vec::new(alloc),
            room: zeros(alloc, piece)?,
        })
    }

    // The lines that end in the next piece of the source, in order; `None` at its end.
    fn next_piece<S: Source>(&mut self, source: &mut S) -> Result<Option<Vec<Name>>, IntakeFault>
        requires { S.faults source.old < 2 ^ 64 - 1 }
        ensures comes { IfOk result
            (Comes (S.left source.old) (S.left source.new) self.old self.new) }
        ensures fault { result ≡ Err fault.ReadFault → S.faults source.old < S.faults source.new }
        ensures kept { (result ≡ Err fault.ReadFault)
            ⊎ (S.faults source.new ≡ S.faults source.old) }
        ensures taken { (bytes : List ℕ) × Consumes (S.left source.old) (S.left source.new) bytes }
        ensures none { result ≡ Err fault.ReadFault →
            Consumes (S.left source.old) (S.left source.new) [] }
        ensures same { result ≡ Err fault.ReadFault → self.new ≡ self.old }
        ensures most { self.new.most ≡ self.old.most }
        ensures room { self.new.room ≡ self.old.room }
    {
        let count = match source.read(self.room.as_mut_slice()) {
            Err(_) => return Err(IntakeFault::ReadFault),
            Ok(0) => return Ok(None),
            Ok(count) => count,
        };
        match take_lines(self.alloc, self.most, &mut self.begun, &self.room[..count]) {
            Ok(lines) => Ok(Some(lines)),
            Err(Memory) => Err(IntakeFault::Memory),
        }
    }

    // The line that is begun, where there is one: one line or none.
    fn last(&self) -> Result<Vec<Name>, Memory>
        ensures { IfOk result (λ v. v.items ≡ last_line self.now.begun) }
    {
        last(self.alloc, self.begun.as_slice())
    }

    /// The lines that come next, in order, and whether more may come behind them: those that end in
    /// the next piece of the source; or, at its end, the line that is begun, where there is one.
    /// `ReadFault` comes only where the source's count of faults rose, and leaves the intake as it
    /// was.
    pub fn next_lines<S: Source>(
        &mut self,
        source: &mut S,
    ) -> Result<(Vec<Name>, bool), IntakeFault>
        requires { S.faults source.old < 2 ^ 64 - 1 }
        ensures comes { IfOk result (λ t. ComeNext (S.left source.old) (S.left source.new)
            self.old self.new t.0.items t.1) }
        ensures fault { result ≡ Err fault.ReadFault → S.faults source.old < S.faults source.new }
        ensures kept { (result ≡ Err fault.ReadFault)
            ⊎ (S.faults source.new ≡ S.faults source.old) }
        ensures taken { (bytes : List ℕ) × Consumes (S.left source.old) (S.left source.new) bytes }
        ensures none { result ≡ Err fault.ReadFault →
            Consumes (S.left source.old) (S.left source.new) [] }
        ensures same { result ≡ Err fault.ReadFault → self.new ≡ self.old }
        ensures most { self.new.most ≡ self.old.most }
        ensures room { self.new.room ≡ self.old.room }
    {
        match self.next_piece(source) {
            Ok(Some(lines)) => Ok((lines, true)),
            Ok(None) => match self.last() {
                Ok(lines) => Ok((lines, false)),
                Err(Memory) => Err(IntakeFault::Memory),
            },
            Err(fault) => Err(fault),
        }
    }
}
