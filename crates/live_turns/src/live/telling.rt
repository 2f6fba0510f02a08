//! Replies as texts.
ghost use Rattle.std.specs.Prelude.{◌≡◌, ◌++◌, IfOk};
ghost use Rattle.std.specs.Fmt.{decimal};
ghost use Rattle.live_turns.specs.LiveTexts.{answered_lines, answered_live, answered_member, bad_json, bad_line_live, bad_time_live, queued_json, queued_live, request_json};

use answer_json::{add_count, add_line_fault, add_member};
use answer_text::Text;
use std::alloc::Global;
use tb_base::Memory;

// `{"request":K`
fn request_json(alloc: Global, k: u64) -> Result<Text, Memory>
    ensures { IfOk result (λ text. text ≡ request_json k) }
{
    let mut text = Text::new(alloc);
    text.add(b"{\"request\":")?;
    text.count(k)?;
    Ok(text)
}

// `K edition N`, the lines of the reply, and an empty line.
fn answered_lines(alloc: Global, k: u64, n: u32, body: &[u8]) -> Result<Vec<u8>, Memory>
    ensures { IfOk result (λ v. v.items ≡ answered_lines k n body.now) }
{
    let mut text = Text::new(alloc);
    text.count(k)?;
    text.add(b" edition ")?;
    text.number(n)?;
    text.add(b"\n")?;
    text.add(body)?;
    text.add(b"\n")?;
    Ok(text.into_bytes())
}

// `{"request":K,"edition":N,MEMBER}`
fn answered_member(alloc: Global, k: u64, n: u32, member: &[u8]) -> Result<Vec<u8>, Memory>
    ensures { IfOk result (λ v. v.items ≡ answered_member k n member.now) }
{
    let mut text = request_json(alloc, k)?;
    add_count(&mut text, b"edition", n)?;
    text.add(b",")?;
    text.add(member)?;
    text.add(b"}\n")?;
    Ok(text.into_bytes())
}

// The reply to line k, by edition n.
pub(crate) fn answered(
    alloc: Global,
    json: bool,
    k: u64,
    n: u32,
    body: &[u8],
) -> Result<Vec<u8>, Memory>
    ensures { IfOk result (λ v. v.items ≡ answered_live json k n body.now) }
{
    if json {
        answered_member(alloc, k, n, body)
    } else {
        answered_lines(alloc, k, n, body)
    }
}

// K and some words, and an empty line.
fn told_lines(alloc: Global, k: u64, words: &[u8]) -> Result<Vec<u8>, Memory>
    ensures { IfOk result (λ v. v.items ≡ decimal k ++ words.now) }
{
    let mut text = Text::new(alloc);
    text.count(k)?;
    text.add(words)?;
    Ok(text.into_bytes())
}

// `{"request":K,"queued":WORD}`
fn queued_json(alloc: Global, k: u64, word: &[u8]) -> Result<Vec<u8>, Memory>
    ensures { IfOk result (λ v. v.items ≡ queued_json k word.now) }
{
    let mut text = request_json(alloc, k)?;
    add_member(&mut text, b"queued", word)?;
    text.add(b"}\n")?;
    Ok(text.into_bytes())
}

// That the item of a word will be published.
pub(crate) fn queued(alloc: Global, json: bool, k: u64, word: &[u8]) -> Result<Vec<u8>, Memory>
    ensures { IfOk result (λ v. v.items ≡ queued_live json k word.now) }
{
    if json {
        queued_json(alloc, k, word)
    } else {
        told_lines(alloc, k, b" queued\n\n")
    }
}

// `{"request":K,"fault":{"number":N,"name":NAME}}`
fn bad_json(alloc: Global, k: u64, number: u32, name: &[u8]) -> Result<Vec<u8>, Memory>
    ensures { IfOk result (λ v. v.items ≡ bad_json k number name.now) }
{
    let mut text = request_json(alloc, k)?;
    text.add(b",\"fault\":")?;
    add_line_fault(&mut text, number, name, None)?;
    text.add(b"}\n")?;
    Ok(text.into_bytes())
}

// That line k is bad.
pub(crate) fn bad_line(alloc: Global, json: bool, k: u64) -> Result<Vec<u8>, Memory>
    ensures { IfOk result (λ v. v.items ≡ bad_line_live json k) }
{
    if json {
        bad_json(alloc, k, 1, b"BadLine")
    } else {
        told_lines(alloc, k, b" bad line\n\n")
    }
}

// That a time of line k is bad.
pub(crate) fn bad_time(alloc: Global, json: bool, k: u64) -> Result<Vec<u8>, Memory>
    ensures { IfOk result (λ v. v.items ≡ bad_time_live json k) }
{
    if json {
        bad_json(alloc, k, 4, b"BadTime")
    } else {
        told_lines(alloc, k, b" bad time\n\n")
    }
}
