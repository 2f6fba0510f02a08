//! Whether bytes need no escape in a string. Most are names of a few bytes, and tens of thousands
//! of them in a reply: two loads that may overlap cover each, as in the writer of the kit's `json`.
ghost use Rattle.std.specs.Prelude.{◌≡◌, ◌+◌, ◌<◌, ◌≤◌, length};
ghost use Rattle.std.specs.Bool.{OnTrue};
ghost use Rattle.json.specs.Print.{escape};
ghost use Rattle.json.specs.Written.{PlainBetween};

use std::simd::prelude::*;

// Whether four bytes need no escape.
fn plain_four(bytes: &[u8], at: usize) -> bool
    requires { at + 4 ≤ length bytes.now }
    ensures { OnTrue result (PlainBetween bytes.now at (at + 4)) }
{
    let four = u8x4::from_slice(&bytes[at..]);
    (four.simd_eq(u8x4::splat(b'"'))
        | four.simd_eq(u8x4::splat(b'\\'))
        | four.simd_lt(u8x4::splat(0x20))).to_bitmask()
        == 0
}

// Whether eight bytes need no escape.
fn plain_eight(bytes: &[u8], at: usize) -> bool
    requires { at + 8 ≤ length bytes.now }
    ensures { OnTrue result (PlainBetween bytes.now at (at + 8)) }
{
    let eight = u8x8::from_slice(&bytes[at..]);
    (eight.simd_eq(u8x8::splat(b'"'))
        | eight.simd_eq(u8x8::splat(b'\\'))
        | eight.simd_lt(u8x8::splat(0x20))).to_bitmask()
        == 0
}

// Whether each byte, one after another, needs no escape.
fn plain_few(bytes: &[u8]) -> bool
    ensures { OnTrue result (PlainBetween bytes.now 0 (length bytes.now)) }
{
    for byte in bytes {
        if *byte == b'"' || *byte == b'\\' || *byte < 0x20 {
            return false;
        }
    }
    true
}

// Whether no byte of less than eight needs an escape.
fn plain_short(bytes: &[u8]) -> bool
    requires { length bytes.now < 8 }
    ensures { OnTrue result (PlainBetween bytes.now 0 (length bytes.now)) }
{
    if bytes.len() < 4 {
        plain_few(bytes)
    } else {
        plain_four(bytes, 0) && plain_four(bytes, bytes.len() - 4)
    }
}

// Whether no byte of eight or more needs an escape.
fn plain_long(bytes: &[u8]) -> bool
    requires { 8 ≤ length bytes.now }
    ensures { OnTrue result (PlainBetween bytes.now 0 (length bytes.now)) }
{
    let mut at = 0;
    while bytes.len() - at > 8 {
        if !plain_eight(bytes, at) {
            return false;
        }
        at += 8;
    }
    plain_eight(bytes, bytes.len() - 8)
}

/// Whether no byte needs an escape. Where it answers `false`, one may still need none.
pub(crate) fn is_plain(bytes: &[u8]) -> bool
    ensures { OnTrue result (escape bytes.now ≡ bytes.now) }
{
    if bytes.len() < 8 {
        plain_short(bytes)
    } else {
        plain_long(bytes)
    }
}
