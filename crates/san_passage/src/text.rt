//! The text of the passages of many runs.

ghost use Rattle.std.specs.Prelude.{◌≡◌, ◌++◌, IfOk, OnOk};
ghost use Rattle.san_passage.specs.Texts.{counts_line, first_line, passages_text, tick_text};

use crate::totals::Passages;
use itoa::Buffer;
use san_base::{NoMemory, Tick};
use san_report::push_pieces;
use std::alloc::Global;

/// The digits of a tick, or a word.
fn tick_text<'a>(tick: Option<Tick>, digits: &'a mut Buffer) -> &'a [u8]
    ensures { result.now ≡ tick_text tick }
{
    match tick {
        Some(tick) => digits.format(tick.0).as_bytes(),
        None => b"none",
    }
}

/// Pushes the line of the counts.
#[tactic(auto, unfolding(crate::specs::Texts::counts_line))]
fn push_counts(text: &mut Vec<u8>, runs: u32, passages: Passages) -> Result<(), NoMemory>
    ensures { OnOk result (text.new.items ≡ text.old.items ++ counts_line runs passages) }
{
    let (mut all, mut reached) = (Buffer::new(), Buffer::new());
    let (mut never, mut stopped) = (Buffer::new(), Buffer::new());
    push_pieces(
        text,
        &[
            b"runs ",
            all.format(runs).as_bytes(),
            b" reached ",
            reached.format(passages.reached).as_bytes(),
            b" never ",
            never.format(passages.never).as_bytes(),
            b" stopped ",
            stopped.format(passages.stopped).as_bytes(),
            b"\n",
        ],
    )
}

/// Pushes the line of the ticks.
#[tactic(auto, unfolding(crate::specs::Texts::first_line))]
fn push_ticks(text: &mut Vec<u8>, passages: Passages) -> Result<(), NoMemory>
    ensures { OnOk result (text.new.items ≡ text.old.items ++ first_line passages) }
{
    let (mut sum, mut least, mut greatest) = (Buffer::new(), Buffer::new(), Buffer::new());
    push_pieces(
        text,
        &[
            b"first ",
            sum.format(passages.sum).as_bytes(),
            b" ",
            tick_text(passages.least, &mut least),
            b" ",
            tick_text(passages.greatest, &mut greatest),
            b"\n",
        ],
    )
}

/// The text of the passages of so many runs.
pub fn passages_text(alloc: Global, runs: u32, passages: Passages) -> Result<Vec<u8>, NoMemory>
    ensures { IfOk result (λ text. text.items ≡ passages_text runs passages) }
{
    let mut text = Vec::new(alloc);
    push_counts(&mut text, runs, passages)?;
    push_ticks(&mut text, passages)?;
    Ok(text)
}
