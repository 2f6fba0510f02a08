//! A file that has no end.
use std::marker::Model;
use tb_base::HashKey;
use tb_io::{Failed, Folder};

/// A folder with one file, which goes on for ever. It tells no contents.
#[derive(Drop)]
pub struct Endless<'a> {
    /// The path of the file.
    pub path: &'a str,
}

impl<'a> Model for Endless<'a> {
    ghost use Rattle.std.specs.Prelude.{ℕ};

    ghost Value = { ℕ };

    ghost view = { λ _. 0 };
}

impl<'a> Folder for Endless<'a> {
    ghost use Rattle.std.specs.Prelude.{None};

    ghost files = { λ _. None };

    ghost faults = { λ s. s };

    fn key(&self) -> HashKey {
        HashKey::known()
    }

    fn has(&mut self, path: &str) -> Result<bool, Failed> {
        Ok(path == self.path)
    }

    fn read(&mut self, _path: &str, _from: u64, buf: &mut [u8]) -> Result<usize, Failed> {
        Ok(buf.len())
    }
}
