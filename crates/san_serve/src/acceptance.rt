//! A text is accepted, with its network, or refused: tokens and grammar, checks, limits of a network.

ghost use Rattle.std.specs.Prelude.{◌≡◌, ◌≤◌, length, Ok};
ghost use Rattle.san_base.specs.declared.limits.TheConstants.{MAX_TEXT_BYTES};
ghost use Rattle.san_text.specs.Texts.{parsed, refused};
ghost use Rattle.san_serve.specs.Accepted.{Accepts, accepted, composition_of, limit_of, offset_of_word, within_limits};
ghost use Rattle.san_serve.specs.inner.Accepted.{AcceptsNetwork};
ghost use Rattle.san_flat.specs.Networks.{composition_in};
ghost use Rattle.san_serve.specs.declared.acceptance.NotAccepted.TheVariants as not_accepted;

use crate::codes::{TOO_MANY_ACTS, TOO_MANY_LEAVES, TOO_MANY_PLACES};
use crate::task::Served;
use san_check::{CheckFault, Model, check};
use san_flat::{FlatFault, flatten};
use san_net::Flat;
use san_text::{ParseFault, Parsed, Refusal, parse, spot};
use std::alloc::Global;
use thiserror::Error;

/// Why a text has no network.
#[derive(Clone, Copy, Debug, PartialEq, Eq, Error)]
pub enum NotAccepted {
    /// The codes are those of the tokens and the grammar, E03 to E09, of the checks, E20 to E49 and
    /// E53 to E55, and of the limits of a network, E50 to E52.
    #[error("Refused")]
    Refused(Refusal),
    #[error("NoMemory")]
    NoMemory,
}

/// A text and its network.
#[derive(Drop)]
pub struct Accepted {
    pub parsed: Parsed,
    pub flat: Flat,
}

impl From<NotAccepted> for Served {
    ghost use Rattle.san_serve.specs.Accepted.{unserved};

    ghost from_gives = { λ fault served. served ≡ unserved fault };

    fn from(fault: NotAccepted) -> Served {
        match fault {
            NotAccepted::Refused(refusal) => Served::Refused(refusal),
            NotAccepted::NoMemory => Served::NoMemory,
        }
    }
}

/// A refusal at a byte of the text.
#[tactic(auto, unfolding(san_text::specs::Texts::refused))]
fn refuse(code: u32, text: &[u8], offset: u32) -> NotAccepted
    requires { length text.now ≤ MAX_TEXT_BYTES }
    ensures { result ≡ not_accepted.Refused (refused code text.now offset) }
{
    let (line, column) = spot(text, offset);
    NotAccepted::Refused(Refusal { code, line, column })
}

/// Where a word stands; the one behind the last is the system's name.
fn offset_of_word(found: &Parsed, word: u32) -> u32
    ensures { result ≡ offset_of_word found.now word }
{
    match found.spots.as_slice().get(word as usize) {
        Some(offset) => *offset,
        None => found.system,
    }
}

/// The network of a model, whose limits are said at the system's name.
#[tactic(auto, using(crate::proofs::AcceptanceLemmas::fits, crate::proofs::AcceptanceLemmas::has_many_leaves, crate::proofs::AcceptanceLemmas::has_many_places, crate::proofs::AcceptanceLemmas::has_many_acts))]
fn network_of(
    alloc: Global,
    text: &[u8],
    found: &Parsed,
    model: &Model,
) -> Result<Flat, NotAccepted>
    requires short { length text.now ≤ MAX_TEXT_BYTES }
    requires model { composition_in model.now ≡ composition_of found.now.syntax }
    ensures { AcceptsNetwork result (within_limits text.now found.now (limit_of (composition_of
        found.now.syntax))) }
{
    match flatten(alloc, model) {
        Ok(flat) => Ok(flat),
        Err(FlatFault::Leaves) => Err(refuse(TOO_MANY_LEAVES, text, found.system)),
        Err(FlatFault::Places) => Err(refuse(TOO_MANY_PLACES, text, found.system)),
        Err(FlatFault::Acts) => Err(refuse(TOO_MANY_ACTS, text, found.system)),
        Err(FlatFault::NoMemory) => Err(NotAccepted::NoMemory),
    }
}

/// The network of a text that was parsed.
#[tactic(auto, using(crate::proofs::AcceptanceLemmas::is_read, crate::proofs::AcceptanceLemmas::composed, crate::proofs::AcceptanceLemmas::passes, crate::proofs::AcceptanceLemmas::fails))]
fn network_of_parsed(alloc: Global, text: &[u8], found: &Parsed) -> Result<Flat, NotAccepted>
    requires short { length text.now ≤ MAX_TEXT_BYTES }
    requires parsed { parsed text.now ≡ Ok found.now }
    ensures { AcceptsNetwork result (accepted text.now) }
{
    match check(alloc, &found.syntax) {
        Ok(model) => network_of(alloc, text, found, &model),
        Err(CheckFault::Refused { code, word }) => {
            Err(refuse(code, text, offset_of_word(found, word)))
        }
        Err(CheckFault::NoMemory) => Err(NotAccepted::NoMemory),
    }
}

/// A model text and its network, or the least code at the first place of the first stage that
/// refuses it: tokens and grammar, checks, limits. Own rules.
#[tactic(auto, using(crate::proofs::AcceptanceLemmas::not_parsed))]
pub fn accept(alloc: Global, text: &[u8]) -> Result<Accepted, NotAccepted>
    requires { length text.now ≤ MAX_TEXT_BYTES }
    ensures { Accepts result text.now }
{
    match parse(alloc, text) {
        Ok(parsed) => {
            let flat = network_of_parsed(alloc, text, &parsed)?;
            Ok(Accepted { parsed, flat })
        }
        Err(ParseFault::Refused(refusal)) => Err(NotAccepted::Refused(refusal)),
        Err(ParseFault::NoMemory) => Err(NotAccepted::NoMemory),
    }
}
