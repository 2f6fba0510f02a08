//! A file of updates is taken from a folder.
ghost use Rattle.std.specs.Prelude.{◌≡◌, ◌<◌, ◌-◌, ◌^◌, IfErr, IfOk, Ok};
ghost use Rattle.late_edit.specs.LateFiles.{IsNoUpdates, UpdatesGive};

use crate::late::LateFault;
use crate::reader::read_late;
use crate::update::Update;
use std::alloc::Global;
use tb_base::Refused;
use tb_io::{Folder, Taken, take_file};

// No file of updates has more bytes.
const MOST_BYTES: u64 = 33_554_432;

/// Why a file of a folder says nothing of trips.
#[derive(Debug, Drop)]
pub enum LateTaken {
    /// The first thing that is wrong with it.
    Fault(LateFault),
    /// The folder failed.
    ReadFault,
    /// Want of memory.
    Memory,
}

/// What a file of a folder says of trips, as `read_late` reads it, or its first fault: `MissingFile`
/// where the folder says that it isn't there, `TooLarge`, or the first bad line. `ReadFault` comes
/// only where the folder failed: its count of faults rose.
pub fn take_late<F: Folder>(
    alloc: Global,
    folder: &mut F,
    path: &str,
) -> Result<Vec<Update>, LateTaken>
    requires { F.faults folder.old < 2 ^ 64 - 1 }
    ensures updates { IfOk result (λ updates.
        UpdatesGive (F.files folder.old) path.now (Ok updates.items)) }
    ensures kept { IfOk result (λ _. F.faults folder.new ≡ F.faults folder.old) }
    ensures refused { IfErr result (IsNoUpdates (F.files folder.old) path.now
        (F.faults folder.old) (F.faults folder.new)) }
    ensures files { F.files folder.new ≡ F.files folder.old }
{
    match take_file(alloc, folder, path, MOST_BYTES) {
        Ok(Some(bytes)) => match read_late(alloc, bytes.as_slice()) {
            Ok(updates) => Ok(updates),
            Err(Refused::Fault(fault)) => Err(LateTaken::Fault(fault)),
            Err(Refused::Memory) => Err(LateTaken::Memory),
        },
        Ok(None) => Err(LateTaken::Fault(LateFault::MissingFile)),
        Err(Taken::TooLarge) => Err(LateTaken::Fault(LateFault::TooLarge)),
        Err(Taken::ReadFault) => Err(LateTaken::ReadFault),
        Err(Taken::Memory) => Err(LateTaken::Memory),
    }
}
