//! Whole files, and all that a source gives.
ghost use Rattle.std.specs.Prelude.{◌≡◌, ◌≢◌, ◌⊎◌, ◌+◌, ◌-◌, ◌^◌, ◌<◌, ◌≤◌, ◌++◌, ℕ, List, Err, IfOk, IfSome, IsSome, OnOk, option_map, length, vec_len};
ghost use Rattle.std.specs.Io.KnownBytes.{Consumes, IsAtEnd};
ghost use Rattle.tb_io.specs.Files.{file_at};

use crate::{Folder, Source};
use std::alloc::{AllocError, Global};

/// Why bytes were not taken.
#[derive(Debug, Clone, Copy, PartialEq, Eq)]
pub enum Taken {
    /// The folder or the source failed.
    ReadFault,
    /// There are more bytes than were allowed.
    TooLarge,
    /// There was no memory.
    Memory,
}

// The bytes of one reading.
const PIECE: usize = 65_536;

/// A whole file of at most `most` bytes, or `None` where the folder says that it isn't there.
///
/// Where the folder tells its files, `None` comes only where the file isn't there, and `TooLarge`
/// only where it has more bytes. `ReadFault` comes only where the folder failed: its count of
/// faults rose. The file is read in pieces of 64 KiB; each turn takes a byte or ends.
pub fn take_file<F: Folder>(
    alloc: Global,
    folder: &mut F,
    path: &str,
    most: u64,
) -> Result<Option<Vec<u8>>, Taken>
    requires most { most ≤ 1_073_741_824 }
    requires count { F.faults folder.old < 2 ^ 64 - 1 }
    ensures whole { IfOk result (λ taken.
        IfSome (F.files folder.old) (λ fs. option_map (λ v. v.items) taken ≡ file_at fs path.now)) }
    ensures within { IfOk result (λ taken. IfSome taken (λ v. vec_len v ≤ most)) }
    ensures too_large { result ≡ Err Taken.TooLarge → IfSome (F.files folder.old) (λ fs.
        IfSome (file_at fs path.now) (λ file. most < length file)) }
    ensures there { result ≡ Err Taken.TooLarge →
        IfSome (F.files folder.old) (λ fs. IsSome (file_at fs path.now)) }
    ensures fault { result ≡ Err Taken.ReadFault → F.faults folder.old < F.faults folder.new }
    ensures kept { (result ≡ Err Taken.ReadFault) ⊎ (F.faults folder.new ≡ F.faults folder.old) }
    ensures same { F.files folder.new ≡ F.files folder.old }
{
    match folder.has(path) {
        Ok(true) => {}
        Ok(false) => return Ok(None),
        Err(_) => return Err(Taken::ReadFault),
    }
    let Ok(mut room) = zeros(alloc, PIECE) else {
        return Err(Taken::Memory);
    };
    let piece = room.as_mut_slice();
    let mut bytes: Vec<u8> = Vec::new(alloc);
    for _turn in 0..most + 2 {
        let from = bytes.len() as u64;
        match folder.read(path, from, piece) {
            Err(_) => return Err(Taken::ReadFault),
            Ok(0) => return Ok(Some(bytes)),
            Ok(count) => add_piece(&mut bytes, &piece[..count], most)?,
        }
    }
    unreachable!()
}

/// All bytes of a source to its end, at most `most` of them.
///
/// Where the source tells what is unread, `TooLarge` comes only where there are more. `ReadFault`
/// comes only where the source failed: its count of faults rose. After a refusal some bytes have
/// been read, at most one more than `most`. The source is read in pieces of at most 64 KiB; each
/// turn takes a byte or ends.
pub fn take_source<S: Source>(alloc: Global, source: &mut S, most: u64) -> Result<Vec<u8>, Taken>
    requires most { most ≤ 1_073_741_824 }
    requires count { S.faults source.old < 2 ^ 64 - 1 }
    ensures whole { IfOk result (λ v. IfSome (S.left source.old) (λ bs. v.items ≡ bs)) }
    ensures end { OnOk result (IsAtEnd (S.left source.new)) }
    ensures within { IfOk result (λ v. vec_len v ≤ most) }
    ensures too_large { result ≡ Err Taken.TooLarge →
        IfSome (S.left source.old) (λ bs. most < length bs) }
    ensures fault { result ≡ Err Taken.ReadFault → S.faults source.old < S.faults source.new }
    ensures kept { (result ≡ Err Taken.ReadFault) ⊎ (S.faults source.new ≡ S.faults source.old) }
    ensures read { (bs : List ℕ) × Consumes (S.left source.old) (S.left source.new) bs }
    ensures few { IfSome (S.left source.old) (λ all. IfSome (S.left source.new)
        (λ rest. length all ≤ length rest + most + 1)) }
{
    let Ok(mut room) = zeros(alloc, PIECE) else {
        return Err(Taken::Memory);
    };
    let piece = room.as_mut_slice();
    let mut bytes: Vec<u8> = Vec::new(alloc);
    for _turn in 0..most + 2 {
        let wanted = (most + 1 - bytes.len() as u64).min(PIECE as u64) as usize;
        let part = &mut piece[..wanted];
        match source.read(part) {
            Err(_) => return Err(Taken::ReadFault),
            Ok(0) => return Ok(bytes),
            Ok(count) => add_piece(&mut bytes, &part[..count], most)?,
        }
    }
    unreachable!()
}

// Puts a piece after the bytes, where they don't become too many.
fn add_piece(bytes: &mut Vec<u8>, piece: &[u8], most: u64) -> Result<(), Taken>
    requires { vec_len bytes.old ≤ most }
    ensures added { OnOk result (bytes.new.items ≡ bytes.old.items ++ piece.now) }
    ensures within { OnOk result (vec_len bytes.new ≤ most) }
    ensures too_large { result ≡ Err Taken.TooLarge → most < vec_len bytes.old + length piece.now }
    ensures own { result ≢ Err Taken.ReadFault }
{
    if piece.len() as u64 > most - bytes.len() as u64 {
        return Err(Taken::TooLarge);
    }
    match bytes.extend_from_slice(piece) {
        Ok(()) => Ok(()),
        Err(_) => Err(Taken::Memory),
    }
}

// A buffer of a length.
fn zeros(alloc: Global, len: usize) -> Result<Vec<u8>, AllocError>
    ensures { IfOk result (λ v. vec_len v ≡ len) }
{
    vec![in alloc; 0; len]
}
