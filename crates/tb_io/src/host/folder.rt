//! The machine's files. They tell no contents.
ghost use Rattle.std.specs.Prelude.{◌≡◌, ◌⊎◌, ◌↔◌, None, Ok, IfErr, IfOk, IfSome, IsErr, IsOk, IsSome, IsTrue, false};
ghost use Rattle.std.specs.Fs.{IsFile, file_type};
ghost use Rattle.std.specs.Io.{ReadsAtMost};
ghost use Rattle.std.specs.IoError.{error_kind};
ghost use Rattle.tb_io.specs.Files.{IsPiece};
ghost use Rattle.tb_io.specs.Host.{ReadsFrom};

use super::counted;
use crate::{Failed, Folder};
use std::fs::{File, Metadata};
use std::io;
use std::io::{ErrorKind, Read, Seek, SeekFrom};
use std::marker::Model;
use std::rt::Files;
use tb_base::HashKey;

/// The files of the machine. It tells no contents, and contracts see it as its count of faults.
#[derive(Drop)]
pub struct HostFolder<'a, R: Files> {
    rt: &'a R,
    key: HashKey,
    faults: u64,
}

impl<'a, R: Files> Model for HostFolder<'a, R> {
    ghost use Rattle.std.specs.Prelude.{ℕ};

    ghost Value = { ℕ };

    ghost view = { λ f. f.faults };
}

impl<'a, R: Files> HostFolder<'a, R> {
    /// The files that a runtime reaches, before the first fault. Their names are hashed by the key.
    pub fn new(rt: &'a R, key: HashKey) -> HostFolder<'a, R>
        ensures { result ≡ 0 }
    {
        HostFolder { rt, key, faults: 0 }
    }
}

impl<'a, R: Files> Folder for HostFolder<'a, R> {
    ghost files = { λ _. None };

    ghost faults = { λ s. s };

    fn key(&self) -> HashKey {
        self.key
    }

    fn has(&mut self, path: &str) -> Result<bool, Failed> {
        counted(&mut self.faults, presence(self.rt.metadata(path)))
    }

    fn read(&mut self, path: &str, from: u64, buf: &mut [u8]) -> Result<usize, Failed> {
        let opened = File::open(self.rt, path);
        counted(&mut self.faults, piece_of(opened, from, buf))
    }
}

// Whether an error says that there is no such file.
fn means_absent(kind: ErrorKind) -> bool
    ensures { IsTrue result ↔ (kind ≡ ErrorKind.NotFound) ⊎ (kind ≡ ErrorKind.NotADirectory) }
{
    matches!(kind, ErrorKind::NotFound | ErrorKind::NotADirectory)
}

// Whether there is a file, by what the machine says of its path.
fn presence(told: io::Result<Metadata>) -> Result<bool, Failed>
    ensures known { IsOk told → IsOk result }
    ensures file { IfOk told (λ m. IfOk result (λ there. IsTrue there ↔ IsFile (file_type m))) }
    ensures no_file { IfErr told (λ e. error_kind e ≡ ErrorKind.NotFound → result ≡ Ok false) }
    ensures no_folder { IfErr told (λ e.
        error_kind e ≡ ErrorKind.NotADirectory → result ≡ Ok false) }
    ensures failed { IfErr told (λ e. IsErr result
        ⊎ (error_kind e ≡ ErrorKind.NotFound) ⊎ (error_kind e ≡ ErrorKind.NotADirectory)) }
{
    match told {
        Ok(found) => Ok(found.is_file()),
        Err(e) if means_absent(e.kind()) => Ok(false),
        Err(_) => Err(Failed),
    }
}

// A piece of a file, by what the machine gives where it is opened.
fn piece_of<F: Read + Seek + Drop>(
    opened: io::Result<F>,
    from: u64,
    buf: &mut [u8],
) -> Result<usize, Failed>
    ensures bound { ReadsAtMost result buf.new }
    ensures failed { IsErr opened → IsErr result }
    ensures piece { ((f : F) → ReadsFrom (F.stream_position f) (F.stream_bytes f) (F.remaining f))
        → IfOk opened (λ file. IsSome (F.stream_position file)
        → IfOk result (λ n. IfSome (F.stream_bytes file) (λ bs. IsPiece bs from n buf.new))) }
{
    match opened {
        Ok(mut file) => read_piece(&mut file, from, buf),
        Err(_) => Err(Failed),
    }
}

// A piece of an open file, from a place on.
fn read_piece<F: Read + Seek>(file: &mut F, from: u64, buf: &mut [u8]) -> Result<usize, Failed>
    ensures bound { ReadsAtMost result buf.new }
    ensures piece { ((f : F) → ReadsFrom (F.stream_position f) (F.stream_bytes f) (F.remaining f))
        → IsSome (F.stream_position file.old)
        → IfOk result (λ n. IfSome (F.stream_bytes file.old) (λ bs. IsPiece bs from n buf.new)) }
{
    if file.seek(SeekFrom::Start(from)).is_err() {
        return Err(Failed);
    }
    match file.read(buf) {
        Ok(count) => Ok(count),
        Err(_) => Err(Failed),
    }
}
