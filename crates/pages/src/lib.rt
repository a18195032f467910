// The listing of one pair, a line at a time into a lent buffer: its first line or its refusal, and the line of each place.
// Whatever decides the bytes is here: the program above reads and writes, and says what it wrote where reader and writer know their bytes.
#![tactic(auto)]

ghost use Rattle.std.specs.Prelude.{◌≡◌, ◌≤◌, ◌<◌};
ghost use Rattle.format.specs.Verdicts.{Fine, verdict_of};
ghost use Rattle.rules.specs.Configurations.{size};
ghost use Rattle.calls.specs.Call.{pair_of};
ghost use Rattle.calls.specs.Refusals.{enter_checks};
ghost use Rattle.texts.specs.Written.{Written};
ghost use Rattle.listings.specs.Pages.{HeadSays, text_at, place_text};

use ask::ask;
use build::build;
use calls::Call;
use entry::entered;
use lines::{conf_line, first_line, refusal_line};
use numbers::places::{frame_of, places};
use rules::At;

// N, of a pair that 1 to 9 and 17 do not refuse.
fn all_places(call: &Call) -> u64
    requires { verdict_of (enter_checks call.now) ≡ Fine }
    ensures { result ≡ size (pair_of call.now) }
{
    match entered(call) {
        Ok(p) => {
            let f = frame_of(p);
            places(f, f.n1) as u64
        }
        Err(_) => 0,
    }
}

// Builds into the lent bytes, and writes the first line of the listing, or the line of a refusal.
pub fn head(out: &mut [u8; 512], call: &Call, kept: &mut [u8]) -> usize
    ensures { HeadSays call.now kept.old kept.new out.old result out.new }
{
    let b = build(call, kept);
    match b.verdict {
        Ok(()) => {
            let n = all_places(call);
            first_line(out, b.kept, n, b.rounds, call.bound, call.rule)
        }
        Err(refusal) => refusal_line(
            out,
            u64::from(refusal.fault.number()),
            u64::from(refusal.side_number()),
            u64::from(refusal.row),
        ),
    }
}

// The line of the configuration at place p, where the reader has so many states.
fn spot_line(out: &mut [u8; 512], call: &Call, kept: &[u8], p: u64, readers: u64) -> usize
    requires { (0 < readers) × ((call.now.bound ≤ 15) × (readers ≡ (pair_of call.now).reader.states)) }
    ensures { Written (text_at call.now kept.now p) out.old result out.new }
{
    let levels = call.bound + 1;
    let states = p / levels;
    let at = At {
        writer: states / readers,
        reader: states % readers,
        level: p % levels,
    };
    let a = ask(call, kept, at);
    let Ok(()) = a.verdict else {
        return 0;
    };
    conf_line(out, at.writer, at.reader, at.level, a.set)
}

// The line of place p, if the lent bytes keep it; no byte else.
pub fn place_line(out: &mut [u8; 512], call: &Call, kept: &[u8], p: usize) -> usize
    ensures { Written (place_text call.now kept.now p) out.old result out.new }
{
    if kept.len() <= p {
        return 0;
    }
    if kept[p] != 1 {
        return 0;
    }
    let Ok(pair) = entered(call) else {
        return 0;
    };
    spot_line(out, call, kept, p as u64, u64::from(pair.reader.states))
}
