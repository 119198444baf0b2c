//! The lines that end a report: the ending, and what each reward is worth.

ghost use Rattle.std.specs.Prelude.{◌≡◌, ◌≤◌, ◌<◌, ◌++◌, List, ℕ, Option, MatchBool, length};
ghost use Rattle.san_base.specs.Flow.{Appends, AppendsPrefix, CountRose};
ghost use Rattle.san_report.specs.Puts.{EndsIn};
ghost use Rattle.san_report.specs.Closings.{closing, worths_by};
ghost use Rattle.san_report.specs.Pages.{Sent};
ghost use Rattle.san_report.specs.Lines.{reward_lines};

use crate::pages::{Line, Pages};
use san_base::{Ending, Sink};
use san_net::Flat;
use san_reward::{Tally, Worth};

/// A reward's worth, which a run has only at its horizon.
pub fn worth_at(tally: &Tally, ending: Ending, reward: u32) -> Option<Worth>
    requires { reward < length tally.now.spans }
    ensures { result ≡ worths_by tally.now ending reward }
{
    match ending {
        Ending::End(_) => Some(tally.value(reward)),
        Ending::Stop(_) => None,
    }
}

/// Puts the lines of all rewards; false after a fault of the sink.
fn put_rewards<K: Sink>(
    sink: &mut K,
    pages: &mut Pages,
    flat: &Flat,
    tally: &Tally,
    ending: Ending,
) -> bool
    requires { length tally.now.spans ≡ length flat.now.rewards }
    ensures bytes { (whole rest : List ℕ) (first : Option (List ℕ))
        → Sent first (K.held sink.old) pages.old whole
        (reward_lines flat.now.rewards 0 (worths_by tally.now ending) ++ rest)
        → MatchBool result (Sent first (K.held sink.new) pages.new whole rest)
        (AppendsPrefix first (K.held sink.new) whole) }
    ensures cause { MatchBool result (Unit {0}) (CountRose (K.faults sink.old) (K.faults sink.new)) }
    ensures later { K.faults sink.old ≤ K.faults sink.new }
{
    flat.is_network();
    'rewards: for (at, reward) in flat.rewards().iter().enumerate() {
        let worth = worth_at(tally, ending, at as u32);
        if !pages.put(sink, flat, Line::Reward(reward, worth)) {
            return false;
        }
    }
    true
}

/// Puts the lines that end a report after `count` completions, with the present rates going on to the
/// end of the horizon's tick, and all that was kept back; false after a fault of the sink.
pub fn close<K: Sink>(
    sink: &mut K,
    pages: &mut Pages,
    flat: &Flat,
    tally: &Tally,
    count: u64,
    ending: Ending,
) -> bool
    requires ending { EndsIn flat.now ending }
    requires rewards { length tally.now.spans ≡ length flat.now.rewards }
    ensures bytes { (whole : List ℕ) (first : Option (List ℕ))
        → Sent first (K.held sink.old) pages.old whole (closing flat.now tally.now count ending)
        → MatchBool result (Appends first (K.held sink.new) whole)
        (AppendsPrefix first (K.held sink.new) whole) }
    ensures cause { MatchBool result (Unit {0}) (CountRose (K.faults sink.old) (K.faults sink.new)) }
    ensures later { K.faults sink.old ≤ K.faults sink.new }
{
    if !pages.put(sink, flat, Line::Ending(count, ending)) {
        return false;
    }
    if !put_rewards(sink, pages, flat, tally, ending) {
        return false;
    }
    pages.flush(sink)
}
