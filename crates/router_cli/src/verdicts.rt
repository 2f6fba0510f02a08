//! Verdicts as texts.
ghost use Rattle.std.specs.Prelude.{◌≡◌, ◌++◌, IfOk, OnOk, codes};
ghost use Rattle.std.specs.Fmt.{decimal};
ghost use Rattle.router_cli.specs.Verifying.{rule_text, verdict_json, verdict_shown, verdict_text};
ghost use Rattle.journey_read.specs.declared.verdict.Verdict.TheVariants as verdict;

use crate::status::{at_number, copied};
use answer_json::{add_count, add_member, add_value};
use answer_text::{Text, time_text};
use journey_read::Verdict;
use std::alloc::Global;
use tb_base::{Memory, Rule, RuleBroken, Value};

// The name of a rule.
fn rule_text(rule: Rule) -> &'static [u8]
    ensures { result.now ≡ rule_text rule }
{
    match rule {
        Rule::BadNumber => b"BadNumber".as_slice(),
        Rule::TwoWalks => b"TwoWalks".as_slice(),
        Rule::NoWalk => b"NoWalk".as_slice(),
        Rule::NoBoarding => b"NoBoarding".as_slice(),
        Rule::NoAlighting => b"NoAlighting".as_slice(),
        Rule::WrongStart => b"WrongStart".as_slice(),
        Rule::TooEarly => b"TooEarly".as_slice(),
        Rule::Apart => b"Apart".as_slice(),
        Rule::TooLate => b"TooLate".as_slice(),
        Rule::WrongEnd => b"WrongEnd".as_slice(),
    }
}

// A line of two parts, and of a number with its name.
fn line_of(
    alloc: Global,
    said: &[u8],
    of: &[u8],
    name: &[u8],
    number: u32,
) -> Result<Vec<u8>, Memory>
    ensures { IfOk result (λ v.
        v.items ≡ said.now ++ of.now ++ name.now ++ decimal number ++ codes "\n") }
{
    let mut line = copied(alloc, said)?;
    line.extend_from_slice(of)?;
    let numbered = at_number(alloc, name, number)?;
    line.extend_from_slice(numbered.as_slice())?;
    line.push(b'\n')?;
    Ok(line)
}

fn broken_text(alloc: Global, broken: RuleBroken) -> Result<Vec<u8>, Memory>
    ensures { IfOk result (λ v. v.items ≡ verdict_text (verdict.Broken broken)) }
{
    line_of(alloc, b"no ", rule_text(broken.rule), b" leg ", broken.leg)
}

fn other_value_text(alloc: Global, value: Value) -> Result<Vec<u8>, Memory>
    ensures { IfOk result (λ v. v.items ≡ verdict_text (verdict.OtherValue value)) }
{
    let time = time_text(alloc, value.arrive)?;
    line_of(
        alloc,
        b"no value arrive ",
        time.as_slice(),
        b" rides ",
        value.rides,
    )
}

// `yes`, `no RULE leg N`, or `no value arrive TIME rides N`.
fn verdict_text(alloc: Global, verdict: Verdict) -> Result<Vec<u8>, Memory>
    ensures { IfOk result (λ v. v.items ≡ verdict_text verdict) }
{
    match verdict {
        Verdict::Yes => copied(alloc, b"yes\n"),
        Verdict::Broken(broken) => broken_text(alloc, broken),
        Verdict::OtherValue(value) => other_value_text(alloc, value),
    }
}

// Adds that a rule is broken.
fn add_broken(text: &mut Text, broken: RuleBroken) -> Result<(), Memory>
    ensures { OnOk result (text.new ≡ text.old ++ verdict_json (verdict.Broken broken)) }
{
    text.add(b"{\"valid\":false")?;
    add_member(text, b"rule", rule_text(broken.rule))?;
    add_count(text, b"leg", broken.leg)?;
    text.add(b"}\n")
}

// Adds the value of the journey itself.
fn add_other_value(text: &mut Text, value: Value) -> Result<(), Memory>
    ensures { OnOk result (text.new ≡ text.old ++ verdict_json (verdict.OtherValue value)) }
{
    text.add(b"{\"valid\":false,")?;
    text.add(b"\"value\":")?;
    add_value(text, &value)?;
    text.add(b"}\n")
}

// Adds a verdict.
fn add_verdict(text: &mut Text, verdict: Verdict) -> Result<(), Memory>
    ensures { OnOk result (text.new ≡ text.old ++ verdict_json verdict) }
{
    match verdict {
        Verdict::Yes => text.add(b"{\"valid\":true}\n"),
        Verdict::Broken(broken) => add_broken(text, broken),
        Verdict::OtherValue(value) => add_other_value(text, value),
    }
}

// `{"valid":true}`, or `{"valid":false` with the rule and the leg, or with the value.
fn verdict_json(alloc: Global, verdict: Verdict) -> Result<Vec<u8>, Memory>
    ensures { IfOk result (λ v. v.items ≡ verdict_json verdict) }
{
    let mut text = Text::new(alloc);
    add_verdict(&mut text, verdict)?;
    Ok(text.into_bytes())
}

/// A verdict, as JSON or as a text.
pub(crate) fn verdict_shown(alloc: Global, json: bool, verdict: Verdict) -> Result<Vec<u8>, Memory>
    ensures { IfOk result (λ v. v.items ≡ verdict_shown json verdict) }
{
    if json {
        verdict_json(alloc, verdict)
    } else {
        verdict_text(alloc, verdict)
    }
}
