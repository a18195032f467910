// The call why, for support: the reason of a move at a configuration, over the bytes that the caller lends. Request b of document 02.
#![tactic(auto)]

ghost use Rattle.std.specs.Prelude.{◌≡◌};
ghost use Rattle.format.specs.Verdicts.{verdict_of, unless};
ghost use Rattle.rules.specs.Configurations.{conf_named};
ghost use Rattle.rules.specs.Tools.Computed.{reason_of};
ghost use Rattle.calls.specs.Call.{pair_of};
ghost use Rattle.calls.specs.Why.{explained, unexplained, why_checks, why_of};

use ask::find;
use calls::{Call, Explained};
use entry::entered;
use format::Refusal;
use reasons::{check_letters, reason_at};
use rules::{At, Reason};

fn refused(refusal: Refusal) -> Explained
    ensures { result ≡ unexplained refusal }
{
    Explained {
        verdict: Err(refusal),
        reason: 0,
    }
}

fn explain(reason: Reason) -> Explained
    ensures { result ≡ explained reason }
{
    Explained {
        verdict: Ok(()),
        reason: reason.number(),
    }
}

// The refusals of ask, then 14, then the reason.
fn reason(call: &Call, kept: &[u8], at: At, x: u64, y: u64) -> Result<Reason, Refusal>
    ensures { result ≡ unless (verdict_of (why_checks call.now kept.now (conf_named at) x y))
        (reason_of (pair_of call.now) kept.now (conf_named at) x y) }
{
    let p = entered(call)?;
    let c = find(p, kept, at)?;
    check_letters(p, x, y)?;
    Ok(reason_at(kept, p, c, x as u8, y as u8))
}

pub fn why(call: &Call, kept: &[u8], at: At, x: u64, y: u64) -> Explained
    ensures { result ≡ why_of call.now kept.now (conf_named at) x y }
{
    match reason(call, kept, at, x, y) {
        Ok(reason) => explain(reason),
        Err(refusal) => refused(refusal),
    }
}
