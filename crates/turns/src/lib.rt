// A cycle of a run, past the call's own checks: refusals 14, 15 and 16, then what the two rows do. Document 01, step.
#![tactic(auto)]

ghost use Rattle.std.specs.Prelude.{◌≡◌, ◌&&◌, [], ◌∷◌, ◌≤◌, eqb, take, None};
ghost use Rattle.std.specs.List.{find};
ghost use Rattle.rules.specs.Tools.Computed.{is_for};
ghost use Rattle.rules.specs.Numbers.{reason_number};
ghost use Rattle.format.specs.Verdicts.{refusal, verdict_of, unless};
ghost use Rattle.format.specs.declared.Fault.TheVariants.{NotAllowed};
ghost use Rattle.calls.specs.Runs.{conf_of};
ghost use Rattle.calls.specs.Step.{done_by, done_of, turn_checks, turn_of};
ghost use Rattle.calls.specs.Past.{Askable, Movable};
ghost use Rattle.turns.specs.Cycles.{row_checks, as_given, Answerable};

mod items;

use calls::{Cycle, Run, Stepped};
use format::{Fault, Refusal, Row, Side, Table, Verdict};
use items::{front, moved};
use outcomes::landed;
use reasons::{check_letters, reason_at};
use rules::{Conf, Pair, Reason};

// Refusal 15: "carries [the reason] in the row field" (request b).
fn not_allowed(reason: Reason) -> Refusal
    ensures { result ≡ refusal NotAllowed None (reason_number reason) }
{
    Refusal {
        fault: Fault::NotAllowed,
        side: None,
        row: u16::from(reason.number()),
    }
}

fn is_for(row: Row, state: u64, letter: u64, answer: u64) -> bool
    ensures { result ≡ (is_for state letter row && eqb row.answer answer) }
{
    u64::from(row.state) == state
        && u64::from(row.drive) == letter
        && u64::from(row.answer) == answer
}

// The row that state, letter and answer fix.
fn row_of(t: Table, state: u64, letter: u64, answer: u64) -> Option<Row>
    requires { t.count ≤ 64 }
    ensures { result ≡ find (λ r. is_for state letter r && eqb r.answer answer) (take t.count t.rows) }
{
    let rows = &t.rows[..usize::from(t.count)];
    rows.iter()
        .copied()
        .find(|row| is_for(*row, state, letter, answer))
}

// A cycle that is done with the rows w and r.
fn done(run: Run, w: Row, r: Row, incoming: u32) -> Stepped
    requires { Movable run w r }
    ensures { result ≡ done_by run w r (incoming ∷ []) }
{
    let items = run.items;
    let level = run.level as u8;
    let held = usize::from(level);
    let to = landed(level, w.item, r.item);
    let left = moved(items, held, incoming, usize::from(r.item), usize::from(to));
    let next = Run {
        writer: u64::from(w.next),
        reader: u64::from(r.next),
        level: u64::from(to),
        items: left,
    };
    Stepped {
        verdict: Ok(()),
        run: next,
        item: front(items, held, incoming, r.item),
        mark: u32::from(r.item),
    }
}

// Past 15: refusal 16, then the rows that the answers fix.
fn by_answers(p: Pair, run: Run, cycle: Cycle) -> Result<Stepped, Refusal>
    requires { Answerable p run cycle }
    ensures { result ≡ unless (verdict_of (row_checks p run cycle)) (done_of p run cycle) }
{
    let Some(written) = row_of(
        p.writer,
        run.writer,
        cycle.writer_letter,
        cycle.writer_answer,
    ) else {
        return Err(Refusal::of(Fault::NoRow, Side::Writer));
    };
    let Some(taken) = row_of(
        p.reader,
        run.reader,
        cycle.reader_letter,
        cycle.reader_answer,
    ) else {
        return Err(Refusal::of(Fault::NoRow, Side::Reader));
    };
    Ok(done(run, written, taken, cycle.incoming))
}

fn turned(p: Pair, kept: &[u8], run: Run, cycle: Cycle) -> Result<Stepped, Refusal>
    requires { Askable p kept.now (conf_of run) }
    ensures { result ≡ unless (verdict_of (turn_checks p kept.now run cycle)) (done_of p run cycle) }
{
    let x = cycle.writer_letter;
    let y = cycle.reader_letter;
    check_letters(p, x, y)?;
    let c = Conf {
        writer: run.writer as u8,
        reader: run.reader as u8,
        level: run.level as u8,
    };
    let reason = reason_at(kept, p, c, x as u8, y as u8);
    if reason.is_allowed() {
        return by_answers(p, run, cycle);
    }
    Err(not_allowed(reason))
}

// A refused cycle leaves the run as it was.
pub fn refused(verdict: Verdict, run: Run) -> Stepped
    ensures { result ≡ as_given run verdict }
{
    Stepped {
        verdict,
        run,
        item: 0,
        mark: 0,
    }
}

pub fn turn(p: Pair, kept: &[u8], run: Run, cycle: Cycle) -> Stepped
    requires { Askable p kept.now (conf_of run) }
    ensures { result ≡ turn_of p kept.now run cycle }
{
    match turned(p, kept, run, cycle) {
        Ok(done) => done,
        Err(refusal) => refused(Err(refusal), run),
    }
}
