//! A line is put piece by piece.

ghost use Rattle.std.specs.Prelude.{◌≡◌, ◌≤◌, ◌++◌, IsTrue, MatchBool, OnOk, length, map};
ghost use Rattle.san_report.specs.Lines.{joined};
ghost use Rattle.san_report.specs.Puts.{Wrote};

use san_base::{NoMemory, Sink, SureSink, put_all};

fn put_piece<K: Sink>(sink: &mut K, piece: &[u8]) -> bool
    ensures { Wrote result (K.held sink.old) (K.held sink.new) (K.faults sink.old)
        (K.faults sink.new) piece.now }
{
    put_all(sink, piece)
}

/// Puts the pieces one behind another.
#[tactic(auto, using(crate::proofs::PutLemmas::wrote_none, crate::proofs::PutLemmas::wrote_then, crate::proofs::PutLemmas::wrote_part))]
pub(crate) fn put_pieces<K: Sink>(sink: &mut K, pieces: &[&[u8]]) -> bool
    ensures { Wrote result (K.held sink.old) (K.held sink.new) (K.faults sink.old)
        (K.faults sink.new) (joined (map (λ p. p.now) pieces.now)) }
{
    match pieces {
        [] => true,
        [piece, rest @ ..] => put_piece(sink, piece) && put_pieces(sink, rest),
    }
}

/// Whether so many bytes are enough for all pieces.
fn fit(pieces: &[&[u8]], room: usize) -> bool
    ensures { IsTrue result → length (joined (map (λ p. p.now) pieces.now)) ≤ room }
{
    let mut left = room;
    'pieces: for k in 0..pieces.len() {
        let many = pieces[k].len();
        if many > left {
            return false;
        }
        left -= many;
    }
    true
}

/// Appends pieces for which there is room.
fn append_all(page: &mut SureSink, pieces: &[&[u8]])
    requires { length (joined (map (λ p. p.now) pieces.now)) ≤ page.old.room }
    ensures { page.new.held ≡ page.old.held ++ joined (map (λ p. p.now) pieces.now) }
{
    'pieces: for k in 0..pieces.len() {
        page.append(pieces[k]);
    }
}

/// Appends the pieces where there is room for all of them; else nothing.
pub(crate) fn append_pieces(page: &mut SureSink, pieces: &[&[u8]]) -> bool
    ensures { MatchBool result
        (page.new.held ≡ page.old.held ++ joined (map (λ p. p.now) pieces.now))
        (page.new ≡ page.old) }
{
    let fits = fit(pieces, page.room());
    if fits {
        append_all(page, pieces);
    }
    fits
}

/// Pushes the pieces one behind another.
pub fn push_pieces(text: &mut Vec<u8>, pieces: &[&[u8]]) -> Result<(), NoMemory>
    ensures { OnOk result (text.new.items ≡ text.old.items ++ joined (map (λ p. p.now) pieces.now)) }
{
    'pieces: for k in 0..pieces.len() {
        text.extend_from_slice(pieces[k])?;
    }
    Ok(())
}
