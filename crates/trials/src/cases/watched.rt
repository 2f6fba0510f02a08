//! Objects of which it is noted whether they are called after a call that failed.
use tb_base::HashKey;
use tb_io::{Failed, Folder, Sink, Source};

/// A folder, a source or a sink, which is as another one, and notes whether it is called after a
/// call that failed.
#[derive(Drop)]
pub struct Watched<T> {
    /// The other one.
    pub inner: T,
    has_failed: bool,
    is_called_again: bool,
}

impl<T> Watched<T> {
    ghost use Rattle.std.specs.Prelude.{◌≡◌};

    /// The same object, before the first call.
    pub fn new(inner: T) -> Watched<T>
        ensures { result.inner ≡ inner }
    {
        Watched {
            inner,
            has_failed: false,
            is_called_again: false,
        }
    }

    /// Whether it was called after a call that failed.
    pub fn is_called_again(&self) -> bool {
        self.is_called_again
    }
}

// Notes a call before it is made.
fn note_call(has_failed: bool, is_called_again: &mut bool) {
    if has_failed {
        *is_called_again = true;
    }
}

impl<F: Folder> Folder for Watched<F> {
    ghost files = { λ s. F.files s.inner };

    ghost faults = { λ s. F.faults s.inner };

    fn key(&self) -> HashKey {
        self.inner.key()
    }

    fn has(&mut self, path: &str) -> Result<bool, Failed> {
        note_call(self.has_failed, &mut self.is_called_again);
        let told = self.inner.has(path);
        self.has_failed = self.has_failed || told.is_err();
        told
    }

    fn read(&mut self, path: &str, from: u64, buf: &mut [u8]) -> Result<usize, Failed> {
        note_call(self.has_failed, &mut self.is_called_again);
        let told = self.inner.read(path, from, buf);
        self.has_failed = self.has_failed || told.is_err();
        told
    }
}

impl<S: Source> Source for Watched<S> {
    ghost left = { λ s. S.left s.inner };

    ghost faults = { λ s. S.faults s.inner };

    fn read(&mut self, buf: &mut [u8]) -> Result<usize, Failed> {
        note_call(self.has_failed, &mut self.is_called_again);
        let told = self.inner.read(buf);
        self.has_failed = self.has_failed || told.is_err();
        told
    }
}

impl<K: Sink> Sink for Watched<K> {
    ghost written = { λ s. K.written s.inner };

    ghost faults = { λ s. K.faults s.inner };

    fn write(&mut self, piece: &[u8]) -> Result<usize, Failed> {
        note_call(self.has_failed, &mut self.is_called_again);
        let told = self.inner.write(piece);
        self.has_failed = self.has_failed || told.is_err();
        told
    }
}
