//! Folders, sources and sinks in memory. They tell their contents, and fail at calls whose numbers
//! are given.
ghost use Rattle.std.specs.Prelude.{◌≡◌, length, min, take};

mod calls;
mod folder;
mod sink;
mod source;

pub use folder::MemFolder;
pub use sink::MemSink;
pub use source::MemSource;

// Copies the first bytes, at most so many and as many as there is room for, and says how many.
fn copy_front(bytes: &[u8], most: usize, buf: &mut [u8]) -> usize
    ensures count { result ≡ min most (min (length bytes.now) (length buf.new)) }
    ensures copied { take result buf.new ≡ take result bytes.now }
{
    let count = most.min(bytes.len().min(buf.len()));
    buf[..count].copy_from_slice(&bytes[..count]);
    count
}
