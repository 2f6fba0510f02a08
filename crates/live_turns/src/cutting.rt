//! The lines of one piece.
ghost use Rattle.std.specs.Prelude.{◌≡◌, ◌≤◌, ◌<◌, [], ◌∷◌, ◌++◌, IfOk, MatchOption, OnOk, length, take, vec_len};
ghost use Rattle.text_lines.specs.Lines.{last_line, without_cr};
ghost use Rattle.live_turns.specs.Coming.{HasNoFeed, begun_by, ended, kept};

use memchr::memchr;
use std::alloc::Global;
use tb_base::{Memory, Name};
use text_lines::without_cr;

// Bytes without a line feed, and what stands behind the line feed that ends them.
#[derive(Clone, Copy)]
struct Fed<'a> {
    line: &'a [u8],
    rest: &'a [u8],
}

// What stands before the first line feed, and what behind it.
fn cut_feed(text: &[u8]) -> Option<Fed<'_>>
    ensures cut { MatchOption result (HasNoFeed text.now)
        (λ fed. HasNoFeed fed.line.now × (text.now ≡ fed.line.now ++ 10 ∷ fed.rest.now)) }
    ensures shorter { MatchOption result (length text.now ≤ length text.now)
        (λ fed. length fed.rest.now < length text.now) }
{
    match memchr(b'\n', text) {
        Some(at) => Some(Fed {
            line: &text[..at],
            rest: &text[at + 1..],
        }),
        None => None,
    }
}

// The first bytes.
fn front(bytes: &[u8], most: usize) -> &[u8]
    ensures { result.now ≡ take most bytes.now }
{
    &bytes[..most.min(bytes.len())]
}

// Puts bytes behind a line that is begun, as far as they are kept.
fn go_on(most: usize, begun: &mut Vec<u8>, bytes: &[u8]) -> Result<(), Memory>
    requires { vec_len begun.old ≤ most }
    ensures kept { OnOk result (begun.new.items ≡ kept most (begun.old.items ++ bytes.now)) }
    ensures most { vec_len begun.new ≤ most }
{
    match begun.extend_from_slice(front(bytes, most - begun.len())) {
        Ok(()) => Ok(()),
        Err(_) => Err(Memory),
    }
}

// Ends the line that is begun, behind these bytes of it. From then on none is begun.
fn end_line(alloc: Global, most: usize, begun: &mut Vec<u8>, bytes: &[u8]) -> Result<Name, Memory>
    requires { vec_len begun.old ≤ most }
    ensures line { IfOk result
        (λ name. name ≡ without_cr (kept most (begun.old.items ++ bytes.now))) }
    ensures begun { OnOk result (begun.new.items ≡ []) }
    ensures most { vec_len begun.new ≤ most }
{
    go_on(most, begun, bytes)?;
    let name = Name::new(alloc, without_cr(begun.as_slice()))?;
    begun.clear();
    Ok(name)
}

// The lines that end in a piece of a text, in order, where `begun` is what is kept of the line that
// is begun before it; afterwards it is that of the line that is begun behind it.
pub(crate) fn take_lines(
    alloc: Global,
    most: usize,
    begun: &mut Vec<u8>,
    piece: &[u8],
) -> Result<Vec<Name>, Memory>
    requires { vec_len begun.old ≤ most }
    ensures lines { IfOk result (λ v. v.items ≡ ended most begun.old.items piece.now) }
    ensures begun { OnOk result (begun.new.items ≡ begun_by most begun.old.items piece.now) }
    ensures most { vec_len begun.new ≤ most }
{
    let mut lines = Vec::new(alloc);
    let mut text = piece;
    while let Some(fed) = cut_feed(text) {
        let line = end_line(alloc, most, begun, fed.line)?;
        let Ok(()) = lines.push(line) else {
            return Err(Memory);
        };
        text = fed.rest;
    }
    match go_on(most, begun, text) {
        Ok(()) => Ok(lines),
        Err(Memory) => {
            drop(lines);
            Err(Memory)
        }
    }
}

// The last line of a text, of which these bytes are kept: none where there are none.
pub(crate) fn last(alloc: Global, begun: &[u8]) -> Result<Vec<Name>, Memory>
    ensures { IfOk result (λ v. v.items ≡ last_line begun.now) }
{
    let mut lines = Vec::new(alloc);
    if !begun.is_empty() {
        lines.push(Name::new(alloc, without_cr(begun))?)?;
    }
    Ok(lines)
}
