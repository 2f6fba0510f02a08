//! Strings in JSON.
ghost use Rattle.std.specs.Prelude.{◌≡◌, ◌<◌, ◌++◌, ◌∷◌, [], List, OnOk, Some, ℕ};
ghost use Rattle.std.specs.Char.{digit_char};
ghost use Rattle.json.specs.Json.{document, string};
ghost use Rattle.json.specs.Print.{escape, escape_byte, escape_letter};
ghost use Rattle.json.specs.Text.{content, plain};
ghost use Rattle.answer_json.specs.Frames.{count_json, member_json, string_json};

use crate::plain::is_plain;
use answer_text::Text;
use tb_base::Memory;

/// A reader finds each string as it was: alone it is the whole text of that string, and behind its
/// opening quote its bytes are what is read up to the closing one, whatever follows.
pub fn read_back()
    ensures alone { (bytes : List ℕ) → document (string_json bytes) ≡ Some (string bytes) }
    ensures within { (bytes rest : List ℕ) →
        string_json bytes ++ rest ≡ 34 ∷ escape bytes ++ 34 ∷ rest }
    ensures content { (bytes rest : List ℕ) →
        content plain (escape bytes ++ 34 ∷ rest) ≡ Some bytes }
{}

// The letter behind a backslash that stands for a byte, or 0 where there is none.
fn letter_of(byte: u8) -> u8
    ensures { result ≡ escape_letter byte }
{
    match byte {
        b'"' | b'\\' => byte,
        8 => b'b',
        12 => b'f',
        b'\n' => b'n',
        b'\r' => b'r',
        b'\t' => b't',
        _ => 0,
    }
}

fn hex_digit(n: u8) -> u8
    requires { n < 16 }
    ensures { result ≡ digit_char n }
{
    if n < 10 { b'0' + n } else { b'a' - 10 + n }
}

// Adds what stands in a string for a byte.
fn add_escaped(text: &mut Text, byte: u8) -> Result<(), Memory>
    ensures { OnOk result (text.new ≡ text.old ++ escape_byte byte) }
{
    let letter = letter_of(byte);
    if letter > 0 {
        return text.add(&[b'\\', letter]);
    }
    if byte < 0x20 {
        return text.add(&[
            b'\\',
            b'u',
            b'0',
            b'0',
            hex_digit(byte / 16),
            hex_digit(byte % 16),
        ]);
    }
    text.add(&[byte])
}

// Adds what stands in a string for some bytes.
pub(crate) fn add_content(text: &mut Text, bytes: &[u8]) -> Result<(), Memory>
    ensures { OnOk result (text.new ≡ text.old ++ escape bytes.now) }
{
    if is_plain(bytes) {
        return text.add(bytes);
    }
    for byte in bytes {
        add_escaped(text, *byte)?;
    }
    Ok(())
}

/// Adds bytes as a string (RFC 8259, section 7): in quotes, where a quote, a backslash and each
/// control character are escaped.
pub fn add_string(text: &mut Text, bytes: &[u8]) -> Result<(), Memory>
    ensures { OnOk result (text.new ≡ text.old ++ string_json bytes.now) }
{
    text.add(b"\"")?;
    add_content(text, bytes)?;
    text.add(b"\"")
}

/// Adds a member behind another one, under a name that needs no escapes: `,"NAME":STRING`.
pub fn add_member(text: &mut Text, name: &[u8], bytes: &[u8]) -> Result<(), Memory>
    ensures { OnOk result (text.new ≡ text.old ++ member_json name.now bytes.now) }
{
    text.add(b",\"")?;
    text.add(name)?;
    text.add(b"\":")?;
    add_string(text, bytes)
}

/// Adds a member behind another one, under a name that needs no escapes: `,"NAME":N`.
pub fn add_total(text: &mut Text, name: &[u8], n: u64) -> Result<(), Memory>
    ensures { OnOk result (text.new ≡ text.old ++ count_json name.now n) }
{
    text.add(b",\"")?;
    text.add(name)?;
    text.add(b"\":")?;
    text.count(n)
}

/// The same of a smaller number.
pub fn add_count(text: &mut Text, name: &[u8], n: u32) -> Result<(), Memory>
    ensures { OnOk result (text.new ≡ text.old ++ count_json name.now n) }
{
    text.add(b",\"")?;
    text.add(name)?;
    text.add(b"\":")?;
    text.number(n)
}
