//! Times as texts.
ghost use Rattle.std.specs.Prelude.{◌≡◌, ◌++◌, ◌<◌, IfOk, OnOk};
ghost use Rattle.std.specs.Fmt.{decimal};
ghost use Rattle.tb_base.specs.Clock.{clock_text, padded, time_text, two_digits};

use super::memory::Memory;
use super::numbers::Sec;
use std::alloc::Global;

/// A time, in seconds from noon minus twelve hours, as hours in at least two digits, minutes and
/// seconds. A negative one has `-` before the text of its distance.
pub fn time_text(alloc: Global, time: Sec) -> Result<Vec<u8>, Memory>
    ensures { IfOk result (λ v. v.items ≡ time_text time) }
{
    let mut text: Vec<u8> = Vec::new(alloc);
    add_time(alloc, &mut text, time)?;
    Ok(text)
}

/// Adds a time at the end of a text, as [`time_text`] shows it.
pub fn add_time(alloc: Global, text: &mut Vec<u8>, time: Sec) -> Result<(), Memory>
    ensures { OnOk result (text.new.items ≡ text.old.items ++ time_text time) }
{
    if time < 0 {
        text.extend_from_slice(b"-")?;
    }
    add_clock(alloc, text, time.unsigned_abs())
}

// Adds seconds as hours, minutes and seconds.
fn add_clock(alloc: Global, text: &mut Vec<u8>, secs: u32) -> Result<(), Memory>
    ensures { OnOk result (text.new.items ≡ text.old.items ++ clock_text secs) }
{
    add_padded(alloc, text, secs / 3600)?;
    text.extend_from_slice(b":")?;
    add_two_digits(text, secs / 60 % 60)?;
    text.extend_from_slice(b":")?;
    add_two_digits(text, secs % 60)
}

// Adds a number in at least two digits.
fn add_padded(alloc: Global, text: &mut Vec<u8>, n: u32) -> Result<(), Memory>
    ensures { OnOk result (text.new.items ≡ text.old.items ++ padded n) }
{
    if n < 100 {
        add_two_digits(text, n)
    } else {
        add_decimal(alloc, text, n)
    }
}

// Adds a number in decimal digits.
fn add_decimal(alloc: Global, text: &mut Vec<u8>, n: u32) -> Result<(), Memory>
    ensures { OnOk result (text.new.items ≡ text.old.items ++ decimal n) }
{
    match format!(in alloc; "{n}") {
        Ok(digits) => Ok(text.extend_from_slice(digits.as_bytes())?),
        Err(_) => Err(Memory),
    }
}

// Adds a number below 100, in two digits.
fn add_two_digits(text: &mut Vec<u8>, n: u32) -> Result<(), Memory>
    requires { n < 100 }
    ensures { OnOk result (text.new.items ≡ text.old.items ++ two_digits n) }
{
    let tens = b'0' + (n / 10) as u8;
    let ones = b'0' + (n % 10) as u8;
    Ok(text.extend_from_slice(&[tens, ones])?)
}
