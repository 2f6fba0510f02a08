//! How a file of a feed is broken.
ghost use Rattle.std.specs.Prelude.{◌<◌};

use feed_maker::{Draw, Files};
use std::alloc::Global;
use std::str;
use tb_base::Memory;

// Bytes that mean something in a file, or stand in none.
const TELLING: [u8; 12] = [
    b',', b'"', b'\n', b'\r', b' ', b'\t', b':', b'-', b'0', b'9', 0, 255,
];

/// How a file is broken: at a byte with a number, or as a whole.
#[derive(Clone, Copy, Debug, PartialEq, Eq)]
pub enum Break {
    /// The byte is another one.
    Changed(u32, u8),
    /// The byte isn't there.
    Dropped(u32),
    /// The byte stands there twice.
    Doubled(u32),
    /// The file ends before the byte.
    Cut(u32),
    /// The bytes of the file with this number stand in its place.
    Exchanged(u32),
    /// The rows behind the first stand the other way round.
    Turned,
}

/// A file, by its number, and how it is broken.
#[derive(Clone, Copy, Debug)]
pub struct Broken {
    pub file: u32,
    pub how: Break,
}

// A byte: one that means something, or any.
fn some_byte(draw: &mut Draw) -> u8 {
    let any = draw.below(256) as u8;
    let telling = draw.below(12) as usize;
    if draw.one_in(3) {
        return any;
    }
    match TELLING.get(telling) {
        Some(byte) => *byte,
        None => any,
    }
}

// A way to break a file of so many bytes, of so many files.
fn some_break(draw: &mut Draw, bytes: u32, files: u32) -> Break
    requires bytes { 0 < bytes }
    requires files { 0 < files }
{
    let at = draw.below(bytes);
    match draw.below(8) {
        0 => Break::Dropped(at),
        1 => Break::Doubled(at),
        2 => Break::Cut(at),
        3 => Break::Exchanged(draw.below(files)),
        4 => Break::Turned,
        _ => Break::Changed(at, some_byte(draw)),
    }
}

// A number of things as what numbers are drawn below: at least 1.
fn bound(count: usize) -> u32
    ensures { 0 < result }
{
    u32::try_from(count).unwrap_or(1).max(1)
}

/// A way to break one of the files.
pub fn some_broken(draw: &mut Draw, files: &[(String, Vec<u8>)]) -> Broken {
    let count = bound(files.len());
    let file = draw.below(count);
    let bytes = match files.get(file as usize) {
        Some(found) => bound(found.1.len()),
        None => 1,
    };
    Broken {
        file,
        how: some_break(draw, bytes, count),
    }
}

// The lines of a file, of which all behind the first stand the other way round.
fn turned(alloc: Global, bytes: &[u8]) -> Result<Vec<u8>, Memory> {
    let text = str::from_utf8(bytes).unwrap_or("");
    let Some((header, rows)) = text.split_once('\n') else {
        return Ok(bytes.to_vec(alloc)?);
    };
    let mut lines: Vec<&str> = Vec::new(alloc);
    for row in rows.lines() {
        lines.push(row)?;
    }
    lines.push(header)?;
    let mut turned = Vec::new(alloc);
    for line in lines.iter().rev() {
        turned.extend_from_slice(line.as_bytes())?;
        turned.push(b'\n')?;
    }
    Ok(turned)
}

// The bytes with one more at a place, where they have that.
fn doubled(alloc: Global, bytes: &[u8], at: usize) -> Result<Vec<u8>, Memory> {
    let mut found = bytes.to_vec(alloc)?;
    if let Some(byte) = bytes.get(at) {
        found.insert(at, *byte)?;
    }
    Ok(found)
}

// The bytes of a file that is broken by itself.
fn broken_bytes(alloc: Global, bytes: &[u8], how: Break) -> Result<Vec<u8>, Memory> {
    let mut found = bytes.to_vec(alloc)?;
    match how {
        Break::Changed(at, byte) => {
            if let Some(place) = found.get_mut(at as usize) {
                *place = byte;
            }
        }
        Break::Dropped(at) => {
            if (at as usize) < found.len() {
                found.remove(at as usize);
            }
        }
        Break::Doubled(at) => return doubled(alloc, bytes, at as usize),
        Break::Cut(at) => found.truncate(at as usize),
        Break::Turned => return turned(alloc, bytes),
        Break::Exchanged(_) => {}
    }
    Ok(found)
}

// The number of the file of which a file gets its bytes.
fn source_of(broken: Broken, file: u32) -> u32 {
    match broken.how {
        Break::Exchanged(other) if broken.file == file => other,
        _ => file,
    }
}

// The bytes of a file where one is broken.
fn bytes_of(
    alloc: Global,
    files: &[(String, Vec<u8>)],
    file: u32,
    broken: Broken,
) -> Result<Vec<u8>, Memory> {
    let bytes = match files.get(source_of(broken, file) as usize) {
        Some(source) => source.1.as_slice(),
        None => &[],
    };
    if broken.file == file {
        return broken_bytes(alloc, bytes, broken.how);
    }
    Ok(bytes.to_vec(alloc)?)
}

/// The files of which one is broken.
pub fn broken_files(
    alloc: Global,
    files: &[(String, Vec<u8>)],
    broken: Broken,
) -> Result<Files, Memory> {
    let mut found = Vec::new(alloc);
    let mut number: u32 = 0;
    for file in files {
        let path = String::from_str(alloc, file.0.as_str())?;
        found.push((path, bytes_of(alloc, files, number, broken)?))?;
        number = number.wrapping_add(1);
    }
    Ok(found)
}
