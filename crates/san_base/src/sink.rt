//! Where bytes go, one piece after another.

ghost use Rattle.std.specs.Prelude.{◌≡◌, ◌<◌, ◌≤◌, ℕ, List, Option, length, MatchBool};
ghost use Rattle.san_base.specs.Flow.{Puts, CountRose, Appends, AppendsPrefix};

/// What a put did: so many bytes were taken, or none, by a fault.
#[derive(Clone, Copy, Debug, PartialEq, Eq)]
pub enum Put {
    Took(usize),
    Failed,
}

/// Where bytes go. `held` is what it holds, where the sink tells it, and `faults` counts the puts
/// that failed, up to its type's greatest number.
pub trait Sink {
    ghost held: { Self → Option (List ℕ) };

    ghost faults: { Self → ℕ };

    /// Appends some bytes of the front of a piece, at least one, or fails and appends nothing.
    fn put(&mut self, piece: &[u8]) -> Put
        requires { 0 < length piece.now }
        ensures later { faults self.old ≤ faults self.new }
        ensures put { Puts result (held self.old) (held self.new) piece.now (faults self.old)
            (faults self.new) };
}

/// Puts all the bytes; false after a put that failed.
#[tactic(auto, using(crate::proofs::FlowLemmas::appends_nothing, crate::proofs::FlowLemmas::appends_more, crate::proofs::FlowLemmas::appends_whole))]
pub fn put_all<K: Sink>(sink: &mut K, bytes: &[u8]) -> bool
    ensures bytes { MatchBool result (Appends (K.held sink.old) (K.held sink.new) bytes.now)
        (AppendsPrefix (K.held sink.old) (K.held sink.new) bytes.now) }
    ensures cause { MatchBool result (Unit {0}) (CountRose (K.faults sink.old) (K.faults sink.new)) }
    ensures later { K.faults sink.old ≤ K.faults sink.new }
{
    let mut at = 0;
    'turns: while at < bytes.len() {
        match sink.put(&bytes[at..]) {
            Put::Took(count) => at += count,
            Put::Failed => return false,
        }
    }
    true
}
