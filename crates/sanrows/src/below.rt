//! Calls of the libraries below the top, whose answers are lines.

use crate::network::network_lines;
use crate::piece::piece_lines;
use san_base::{MAX_TEXT_BYTES, NoMemory, Status};
use san_net::Flat;
use san_serve::{NotAccepted, accept};
use std::alloc::Global;

/// The lines of a call on a network; none where the words ask for what isn't there.
fn lines(alloc: Global, name: &str, flat: &Flat, words: &str) -> Result<Option<Vec<u8>>, NoMemory> {
    match name {
        "network" => Ok(Some(network_lines(alloc, flat)?)),
        _ => piece_lines(alloc, flat, words),
    }
}

/// The status and the lines of a call on the network of a text.
pub(crate) fn call_below(
    alloc: Global,
    name: &str,
    words: &str,
    text: &[u8],
) -> Result<(Status, Vec<u8>), NoMemory> {
    if text.len() > MAX_TEXT_BYTES {
        return Ok((Status::Refused, Vec::new(alloc)));
    }
    match accept(alloc, text) {
        Ok(accepted) => match lines(alloc, name, &accepted.flat, words)? {
            Some(lines) => Ok((Status::Done, lines)),
            None => Ok((Status::Words, Vec::new(alloc))),
        },
        Err(NotAccepted::Refused(_)) => Ok((Status::Refused, Vec::new(alloc))),
        Err(NotAccepted::NoMemory) => Err(NoMemory),
    }
}
