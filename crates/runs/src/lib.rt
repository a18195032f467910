// A run with real items: the calls begin and step. Document 01, "The calls and what they return". Neither writes lent memory.
#![tactic(auto)]

ghost use Rattle.std.specs.Prelude.{◌≡◌, ◌++◌, ℕ};
ghost use Rattle.lists.specs.Search.{some};
ghost use Rattle.format.specs.Verdicts.{verdict_of, unless};
ghost use Rattle.calls.specs.Call.{call_of, pair_of};
ghost use Rattle.calls.specs.Begin.{empty_at, begin_of};
ghost use Rattle.calls.specs.Step.{nonzero, open_checks, step_of};
ghost use Rattle.calls.specs.Past.{Entered};
ghost use Rattle.calls.specs.Refusals.{enter_checks};

use ask::find;
use calls::{Begun, Call, Cycle, Run, Stepped};
use entry::{enter, entered};
use format::{Fault, Refusal, Verdict};
use rules::{At, Pair};
use turns::{refused, turn};

fn empty_run(writer: u64, reader: u64) -> Run
    ensures { result ≡ empty_at writer reader }
{
    Run {
        writer,
        reader,
        level: 0,
        items: [0; 16],
    }
}

// The start with nothing held. It takes no kept bytes and does not ask whether the start is kept; it takes no
// rule and enters under rule 0, which is never refused: its answer is the same for each. Document 01 names the let else.
pub fn begin(writer: &[u8], reader: &[u8], bound: u64) -> Begun
    ensures { (rule : ℕ) → result ≡ begin_of (call_of writer.now reader.now bound rule) }
{
    let call = Call {
        writer,
        reader,
        bound,
        rule: 0,
    };
    let entry = enter(&call);
    let Ok(()) = entry.verdict else {
        return Begun {
            verdict: entry.verdict,
            run: empty_run(0, 0),
        };
    };
    let p = entry.pair;
    Begun {
        verdict: Ok(()),
        run: empty_run(u64::from(p.writer.start), u64::from(p.reader.start)),
    }
}

fn some_nonzero(items: [u32; 16], from: usize) -> bool
    ensures { result ≡ some (nonzero items) from 16 }
{
    items.iter().skip(from).any(|&item| item != 0)
}

// Past 9 and 17: refusals 10, 12 and 13, which is that of ask, and then that no place at or past the level holds anything.
fn open(p: Pair, kept: &[u8], run: Run) -> Verdict
    requires { Entered p }
    ensures { result ≡ verdict_of (open_checks p kept.now run) }
{
    let at = At {
        writer: run.writer,
        reader: run.reader,
        level: run.level,
    };
    find(p, kept, at)?;
    if some_nonzero(run.items, run.level as usize) {
        return Err(Refusal::from(Fault::NoConfiguration));
    }
    Ok(())
}

// All that a call tests before its cycle.
fn opened(call: &Call, kept: &[u8], run: Run) -> Result<Pair, Refusal>
    ensures { result ≡ unless (verdict_of (enter_checks call.now ++ open_checks (pair_of call.now) kept.now run)) (pair_of call.now) }
{
    let p = entered(call)?;
    open(p, kept, run)?;
    Ok(p)
}

// One cycle of a run. A refused step returns the run given, also one that makes no sense.
pub fn step(call: &Call, kept: &[u8], run: Run, cycle: Cycle) -> Stepped
    ensures { result ≡ step_of call.now kept.now run cycle }
{
    match opened(call, kept, run) {
        Ok(p) => turn(p, kept, run, cycle),
        Err(refusal) => refused(Err(refusal), run),
    }
}
