// What every call does first: read both tables, test the bound and the rule; and the tests of kept bytes that ask, why and step share.
#![tactic(auto)]

ghost use Rattle.std.specs.Prelude.{◌≡◌, ◌∷◌, [], ◌≤◌, length};
ghost use Rattle.format.specs.Verdicts.{verdict_of, and_then, unless};
ghost use Rattle.calls.specs.Call.{rule_of, pair_of};
ghost use Rattle.calls.specs.Refusals.{bound_check, rule_check, enter_checks, lent_checks};
ghost use Rattle.entry.specs.Enter.{Enters};
ghost use Rattle.entry.specs.Largest.{Largest};

use calls::Call;
use format::{Fault, Refusal, Side, Verdict};
use rules::{Pair, Rule};
use tables::read;

// The pair as read stands beside the verdict, as in a reading; a table that was refused is zero in every field.
#[derive(Clone, Copy)]
pub struct Entry {
    pub pair: Pair,
    pub verdict: Verdict,
}

// 9, then 17: the rule that the number chooses.
fn rule_under(bound: u64, rule: u64) -> Result<Rule, Refusal>
    ensures { result ≡ unless (verdict_of (bound_check bound ∷ rule_check rule ∷ [])) (rule_of rule) }
{
    if 15 < bound {
        return Err(Refusal::from(Fault::BoundTooLarge));
    }
    Rule::try_from(rule)
}

// Both tables, then 9, then 17. Inlined, for a result of this size is copied where it is returned.
#[inline]
pub fn entered(call: &Call) -> Result<Pair, Refusal>
    ensures { result ≡ unless (verdict_of (enter_checks call.now)) (pair_of call.now) }
{
    let writer = read(call.writer, Side::Writer);
    writer.verdict?;
    let reader = read(call.reader, Side::Reader);
    reader.verdict?;
    let rule = rule_under(call.bound, call.rule)?;
    Ok(Pair {
        writer: writer.table,
        reader: reader.table,
        bound: call.bound,
        rule,
    })
}

// The rule that a number chooses. One above 1 is refused, so what it chooses here is never used.
fn rule_of(rule: u64) -> Rule
    ensures { result ≡ rule_of rule }
{
    match rule {
        0 => Rule::Registered,
        _ => Rule::FlowThrough,
    }
}

// The writer's refusal, else the reader's, else 9, else 17.
fn first_of(writer: Verdict, reader: Verdict, bound: u64, rule: u64) -> Verdict
    ensures { result ≡ and_then writer (and_then reader (verdict_of (bound_check bound ∷ rule_check rule ∷ []))) }
{
    writer?;
    reader?;
    rule_under(bound, rule)?;
    Ok(())
}

// The same as `entered`, with the pair beside a refusal too: both tables are read in any case.
pub fn enter(call: &Call) -> Entry
    ensures { Enters call.now result }
{
    let writer = read(call.writer, Side::Writer);
    let reader = read(call.reader, Side::Reader);
    Entry {
        pair: Pair {
            writer: writer.table,
            reader: reader.table,
            bound: call.bound,
            rule: rule_of(call.rule),
        },
        verdict: first_of(writer.verdict, reader.verdict, call.bound, call.rule),
    }
}

// The largest of the first n bytes. It looks at each of them, with no early exit: so the loop compiles to wide instructions.
fn largest(bytes: &[u8], n: usize) -> u8
    requires { n ≤ length bytes.now }
    ensures { Largest bytes.now n result }
{
    let mut most = 0;
    for &byte in &bytes[..n] {
        most = most.max(byte);
    }
    most
}

// Refusals 10 and 12, of kept bytes that are lent for n places.
pub fn check_bytes(bytes: &[u8], n: usize) -> Verdict
    ensures { result ≡ verdict_of (lent_checks n bytes.now) }
{
    if bytes.len() < n {
        return Err(Refusal::from(Fault::NoRoom));
    }
    if 1 < largest(bytes, n) {
        return Err(Refusal::from(Fault::KeptByte));
    }
    Ok(())
}
