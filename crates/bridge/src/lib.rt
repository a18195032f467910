// Entry points for the generator: build, ask, why and check on byte slices and numbers, each returning one 64-bit number.
// Document 01, "The calls and what they return"; why is request b's, check is request c's.
#![tactic(auto)]

ghost use Rattle.std.specs.Prelude.{◌≡◌, ◌<◌, ◌^◌};
ghost use Rattle.rules.specs.Configurations.{conf_with};
ghost use Rattle.calls.specs.Call.{call_of};
ghost use Rattle.calls.specs.Ask.{ask_of};
ghost use Rattle.calls.specs.Why.{why_of};
ghost use Rattle.calls.specs.Packed.{packed, packed_with, packed_asked, packed_explained, PackedBuild, PackedCheck};

use ask::ask;
use build::build;
use calls::Call;
use checker::check;
use format::Verdict;
use rules::At;
use why::why;

fn pack(number: u8, side: u8, row: u16, fourth: u64, fifth: u64) -> u64
    requires { (fourth < 2 ^ 16) × (fifth < 2 ^ 16) }
    ensures { result ≡ packed number side row fourth fifth }
{
    u64::from(number)
        + 0x100 * u64::from(side)
        + 0x1_0000 * u64::from(row)
        + 0x1_0000_0000 * fourth
        + 0x1_0000_0000_0000 * fifth
}

fn pack_verdict(verdict: Verdict, fourth: u64, fifth: u64) -> u64
    requires { (fourth < 2 ^ 16) × (fifth < 2 ^ 16) }
    ensures { result ≡ packed_with verdict fourth fifth }
{
    match verdict {
        Ok(()) => pack(0, 0, 0, fourth, fifth),
        Err(refusal) => pack(
            refusal.fault.number(),
            refusal.side_number(),
            refusal.row,
            fourth,
            fifth,
        ),
    }
}

#[unsafe(no_mangle)]
pub extern "C" fn bridge_build(
    writer: &[u8],
    reader: &[u8],
    bound: u64,
    rule: u64,
    buffer: &mut [u8],
) -> u64
    ensures { PackedBuild (call_of writer.now reader.now bound rule) buffer.old buffer.new result }
{
    let call = Call {
        writer,
        reader,
        bound,
        rule,
    };
    let b = build(&call, buffer);
    pack_verdict(b.verdict, b.kept, b.rounds)
}

#[unsafe(no_mangle)]
pub extern "C" fn bridge_ask(
    writer: &[u8],
    reader: &[u8],
    bound: u64,
    rule: u64,
    kept: &[u8],
    writer_state: u64,
    reader_state: u64,
    level: u64,
) -> u64
    ensures { result ≡ packed_asked
        (ask_of (call_of writer.now reader.now bound rule) kept.now (conf_with writer_state reader_state level)) }
{
    let call = Call {
        writer,
        reader,
        bound,
        rule,
    };
    let at = At {
        writer: writer_state,
        reader: reader_state,
        level,
    };
    let a = ask(&call, kept, at);
    pack_verdict(a.verdict, u64::from(a.count), u64::from(a.lowest))
}

// C asks for the set and for the packed number by two names.
#[unsafe(no_mangle)]
pub extern "C" fn bridge_ask_set(
    writer: &[u8],
    reader: &[u8],
    bound: u64,
    rule: u64,
    kept: &[u8],
    writer_state: u64,
    reader_state: u64,
    level: u64,
) -> u64
    ensures { result ≡ (ask_of (call_of writer.now reader.now bound rule) kept.now
        (conf_with writer_state reader_state level)).set }
{
    let call = Call {
        writer,
        reader,
        bound,
        rule,
    };
    let at = At {
        writer: writer_state,
        reader: reader_state,
        level,
    };
    ask(&call, kept, at).set
}

#[unsafe(no_mangle)]
pub extern "C" fn bridge_why(
    writer: &[u8],
    reader: &[u8],
    bound: u64,
    rule: u64,
    kept: &[u8],
    writer_state: u64,
    reader_state: u64,
    level: u64,
    x: u64,
    y: u64,
) -> u64
    ensures { result ≡ packed_explained
        (why_of (call_of writer.now reader.now bound rule) kept.now (conf_with writer_state reader_state level) x y) }
{
    let call = Call {
        writer,
        reader,
        bound,
        rule,
    };
    let at = At {
        writer: writer_state,
        reader: reader_state,
        level,
    };
    let e = why(&call, kept, at, x, y);
    pack_verdict(e.verdict, u64::from(e.reason), 0)
}

#[unsafe(no_mangle)]
pub extern "C" fn bridge_check(
    writer: &[u8],
    reader: &[u8],
    bound: u64,
    rule: u64,
    list: &[u8],
) -> u64
    ensures { PackedCheck (call_of writer.now reader.now bound rule) list.now result }
{
    let call = Call {
        writer,
        reader,
        bound,
        rule,
    };
    let verdict = check(&call, list);
    pack_verdict(verdict, 0, 0)
}
