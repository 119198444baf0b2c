//! Where bytes come from, and reading them to the end.

ghost use Rattle.std.specs.Prelude.{◌≡◌, ◌<◌, ◌≤◌, ◌+◌, ℕ, List, Option, length, IfOk, OnOk, IsErrOf, vec_len};
ghost use Rattle.san_base.specs.Flow.{Reads, CountRose, Takes, TakesFirst, IsUsedUp, TakesUpTo};
ghost use Rattle.san_base.specs.inner.Turns.{TakesMore};

use std::alloc::Global;

/// The bytes that one read asks for at most.
const READ_BYTES: usize = 4_096;

/// What a read gave: so many bytes, the end, or a fault.
#[derive(Clone, Copy, Debug, PartialEq, Eq)]
pub enum Read {
    Took(usize),
    End,
    Failed,
}

/// Where bytes come from. `left` is what is left, where the source tells it, and `faults` counts
/// the reads that failed, up to its type's greatest number.
pub trait Source {
    ghost left: { Self → Option (List ℕ) };

    ghost faults: { Self → ℕ };

    /// Gives the next bytes, at least one and at most as many as the buffer has.
    fn read(&mut self, buf: &mut [u8]) -> Read
        requires { 0 < length buf.old }
        ensures later { faults self.old ≤ faults self.new }
        ensures read { Reads result (left self.old) (left self.new) buf.new (faults self.old) (faults self.new) };
}

/// Why not all of a source was taken.
#[derive(Clone, Copy, Debug, PartialEq, Eq)]
pub enum Taking {
    /// A read failed.
    Failed,
    /// The source has more bytes than were asked for.
    Over,
    NoMemory,
}

/// What one turn of taking came to.
enum Turn {
    More,
    End,
    Failed,
    NoMemory,
}

/// One read, whose bytes are put behind those that were taken before.
#[tactic(auto, using(crate::proofs::FlowLemmas::takes_more, crate::proofs::FlowLemmas::gives_first))]
fn take_more<S: Source>(source: &mut S, part: &mut [u8], taken: &mut Vec<u8>) -> Turn
    requires { 0 < length part.old }
    ensures answer { TakesMore result (S.left source.old) (S.left source.new) taken.old.items taken.new.items
        (length part.old) }
    ensures cause { result ≡ Turn.Failed → CountRose (S.faults source.old) (S.faults source.new) }
    ensures later { S.faults source.old ≤ S.faults source.new }
{
    match source.read(part) {
        Read::Took(count) => match taken.extend_from_slice(&part[..count]) {
            Ok(()) => Turn::More,
            Err(_) => Turn::NoMemory,
        },
        Read::End => Turn::End,
        Read::Failed => Turn::Failed,
    }
}

/// Takes all that is left, at most `most` bytes. Where there are more, it ends at the first byte
/// too many.
#[tactic(auto, using(crate::proofs::FlowLemmas::takes_nothing, crate::proofs::FlowLemmas::takes_first, crate::proofs::FlowLemmas::takes_further))]
pub fn take_all<S: Source>(alloc: Global, source: &mut S, most: u32) -> Result<Vec<u8>, Taking>
    ensures whole { IfOk result (λ v. Takes (S.left source.old) (S.left source.new) v.items) }
    ensures used_up { OnOk result (IsUsedUp (S.left source.new)) }
    ensures few { IfOk result (λ v. vec_len v ≤ most) }

    ensures over { IsErrOf result Taking.Over → TakesFirst (S.left source.old) (S.left source.new) (most + 1) }
    ensures failed { IsErrOf result Taking.Failed → CountRose (S.faults source.old) (S.faults source.new) }
    ensures cut { IsErrOf result Taking.Failed → TakesUpTo (S.left source.old) (S.left source.new) most }
    ensures no_memory { IsErrOf result Taking.NoMemory
        → TakesUpTo (S.left source.old) (S.left source.new) (most + 1) }

    ensures later { S.faults source.old ≤ S.faults source.new }
{
    let mut taken: Vec<u8> = Vec::new(alloc);
    let mut buffer = [0; READ_BYTES];
    'turns: while taken.len() <= most as usize {
        let room = (most as usize + 1 - taken.len()).min(buffer.len());
        match take_more(source, &mut buffer[..room], &mut taken) {
            Turn::More => {}
            Turn::End => return Ok(taken),
            Turn::Failed => return Err(Taking::Failed),
            Turn::NoMemory => return Err(Taking::NoMemory),
        }
    }
    Err(Taking::Over)
}
