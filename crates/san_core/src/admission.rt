//! How many of a piece's completions the limits let through.

ghost use Rattle.std.specs.Prelude.{◌≡◌, ◌≤◌, ◌<◌, ◌+◌, ◌^◌, ℕ, IfSome, Some};
ghost use Rattle.std.specs.Option.{option_map};
ghost use Rattle.san_law.specs.Admitted.{trap_of};
ghost use Rattle.san_law.specs.Core.{burst_after};
ghost use Rattle.san_leaf.specs.Outcomes.{fault_in};
ghost use Rattle.san_leaf.specs.States.{kind_in};
ghost use Rattle.san_core.specs.inner.Stops.{TrapsIn};
ghost use Rattle.san_core.specs.inner.Admits.{admits, admits_rest, admits_settled, closes, over_in, passes};

use crate::over::{Over, events_left, limit_by};
use san_base::{ActId, Kind, LeafId, Limits, Tick};
use san_leaf::Fault;

/// Whose piece is taken: its leaf, the number of the leaf's first activity, the kind and the time.
#[derive(Clone, Copy, Debug, PartialEq, Eq)]
pub struct Taking {
    pub leaf: LeafId,
    pub first: ActId,
    pub kind: Kind,
    pub time: Tick,
}

/// How many completions the limits let through, and what stops the core, if anything does.
#[derive(Clone, Copy, Debug, PartialEq, Eq)]
pub(crate) struct Admission {
    pub(crate) passed: u32,
    pub(crate) over: Option<Over>,
}

/// How many of so many completions both limits let through, and the limit that stops the next.
fn passing(limits: &Limits, burst: u32, count: u64, completions: u32) -> Admission
    requires { count + completions < 2 ^ 64 }
    ensures within { result.passed ≤ completions }
    ensures is { (result.passed, option_map over_in result.over)
        ≡ passes limits.now.burst limits.now.events burst count completions }
    ensures of { (leaf first : ℕ) → IfSome result.over (TrapsIn leaf first) }
{
    let mut passed = 0;
    'each: while passed < completions {
        let burst = u64::from(burst) + u64::from(passed);
        if let Some(over) = limit_by(limits, burst, count + u64::from(passed)) {
            return Admission {
                passed,
                over: Some(over),
            };
        }
        passed += 1;
    }
    Admission { passed, over: None }
}

/// The trap of a fault.
fn trapped(taking: Taking, fault: Fault) -> Over
    requires { taking.first.0 ≤ fault.act.0 }
    ensures is { Some (over_in result) ≡ trap_of taking.leaf.0 (Some (fault_in taking.first.0 fault)) }
    ensures of { TrapsIn taking.leaf.0 taking.first.0 result }
{
    let act = fault.act.0 - taking.first.0;
    Over::Trapped(taking.leaf, act, fault.act, fault.trap)
}

/// What a fault comes to; where its activity was picked, the limits come first.
fn closing(
    limits: &Limits,
    taking: Taking,
    burst: u64,
    count: u64,
    fault: Option<Fault>,
) -> Option<Over>
    requires { IfSome fault (λ f. taking.first.0 ≤ f.act.0) }
    ensures is { option_map over_in result ≡ closes limits.now.burst limits.now.events taking.leaf.0
        burst count (option_map (fault_in taking.first.0) fault) }
    ensures of { IfSome result (TrapsIn taking.leaf.0 taking.first.0) }
{
    let fault = fault?;
    if fault.picked {
        if let Some(over) = limit_by(limits, burst, count) {
            return Some(over);
        }
    }
    Some(trapped(taking, fault))
}

/// How many of a settled piece's completions are let through.
fn settled(
    limits: &Limits,
    taking: Taking,
    burst: u32,
    count: u64,
    completions: u32,
    fault: Option<Fault>,
) -> Admission
    requires few { count + completions < 2 ^ 64 }
    requires fault { IfSome fault (λ f. taking.first.0 ≤ f.act.0) }
    ensures within { result.passed ≤ completions }
    ensures is { (result.passed, option_map over_in result.over)
        ≡ admits_settled limits.now.burst limits.now.events taking.leaf.0 burst count
        (option_map (fault_in taking.first.0) fault) completions }
    ensures of { IfSome result.over (TrapsIn taking.leaf.0 taking.first.0) }
{
    let Admission { passed, over } = passing(limits, burst, count, completions);
    let over = match over {
        Some(over) => Some(over),
        None => {
            let burst = u64::from(burst) + u64::from(passed);
            closing(limits, taking, burst, count + u64::from(passed), fault)
        }
    };
    Admission { passed, over }
}

/// How many of a fired piece's completions are let through, where the first of them is.
fn fired(
    limits: &Limits,
    taking: Taking,
    count: u64,
    completions: u32,
    fault: Option<Fault>,
) -> Admission
    requires few { count + completions < 2 ^ 64 }
    requires fault { IfSome fault (λ f. taking.first.0 ≤ f.act.0) }
    ensures within { result.passed ≤ completions }
    ensures is { (result.passed, option_map over_in result.over)
        ≡ admits_rest limits.now.burst limits.now.events taking.leaf.0 count
        (option_map (fault_in taking.first.0) fault) completions }
    ensures of { IfSome result.over (TrapsIn taking.leaf.0 taking.first.0) }
{
    if completions == 0 {
        let over = match fault {
            Some(fault) => Some(trapped(taking, fault)),
            None => None,
        };
        return Admission { passed: 0, over };
    }
    let Admission { passed, over } = settled(limits, taking, 0, count + 1, completions - 1, fault);
    Admission {
        passed: passed + 1,
        over,
    }
}

/// How many of a piece's completions the limits let through: the first of a fired piece sets the
/// burst to 0, and is tested by the event limit alone.
pub(crate) fn admit(
    limits: &Limits,
    taking: Taking,
    burst: u32,
    count: u64,
    completions: u32,
    fault: Option<Fault>,
) -> Admission
    requires few { count + completions < 2 ^ 64 }
    requires fault { IfSome fault (λ f. taking.first.0 ≤ f.act.0) }
    ensures within { result.passed ≤ completions }
    ensures is { (result.passed, option_map over_in result.over)
        ≡ admits limits.now.burst limits.now.events taking.leaf.0 burst count
        (kind_in taking.first.0 taking.kind) (option_map (fault_in taking.first.0) fault)
        completions }
    ensures of { IfSome result.over (TrapsIn taking.leaf.0 taking.first.0) }
{
    match taking.kind {
        Kind::Fire(_) => match events_left(limits, count) {
            Some(over) => Admission {
                passed: 0,
                over: Some(over),
            },
            None => fired(limits, taking, count, completions, fault),
        },
        Kind::Settle | Kind::Refresh => {
            settled(limits, taking, burst, count, completions, fault)
        }
    }
}

/// The burst after so many completions of a piece.
pub(crate) fn burst_after(kind: Kind, burst: u32, passed: u32) -> u32
    requires { burst_after (kind_in 0 kind) burst passed < 2 ^ 32 }
    ensures { (first : ℕ) → result ≡ burst_after (kind_in first kind) burst passed }
{
    match kind {
        Kind::Fire(_) => passed.saturating_sub(1),
        Kind::Settle | Kind::Refresh => burst + passed,
    }
}
