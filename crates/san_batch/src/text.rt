//! The text of a batch.

ghost use Rattle.std.specs.Prelude.{◌≡◌, ◌++◌, ◌∷◌, [], IfOk, OnOk, codes, length, map};
ghost use Rattle.san_batch.specs.Texts.{batch_line, batch_text, number_text, runs_line, squares_text};

use itoa::Buffer;
use san_base::NoMemory;
use san_net::{Flat, Reward};
use san_report::push_pieces;
use san_summary::{Batch, Squares, Summary};
use std::alloc::Global;

/// The digits of the sum of squares, or a word.
fn squares_text<'a>(squares: Squares, digits: &'a mut Buffer) -> &'a [u8]
    ensures { result.now ≡ squares_text squares }
{
    match squares {
        Squares::Sum(sum) => digits.format(sum).as_bytes(),
        Squares::Wide => b"wide",
    }
}

/// The digits of a number, or a word.
fn number_text<'a>(number: Option<i128>, digits: &'a mut Buffer) -> &'a [u8]
    ensures { result.now ≡ number_text number }
{
    match number {
        Some(number) => digits.format(number).as_bytes(),
        None => b"none",
    }
}

/// Pushes the line of the runs.
#[tactic(auto, unfolding(crate::specs::Texts::runs_line))]
fn push_runs(text: &mut Vec<u8>, runs: u32, stopped: u32) -> Result<(), NoMemory>
    ensures { OnOk result (text.new.items ≡ text.old.items ++ runs_line runs stopped) }
{
    let (mut all, mut some) = (Buffer::new(), Buffer::new());
    push_pieces(
        text,
        &[
            b"runs ",
            all.format(runs).as_bytes(),
            b" stopped ",
            some.format(stopped).as_bytes(),
            b"\n",
        ],
    )
}

/// The pieces of a reward's line, whose numbers are given as texts.
fn line_pieces<'a>(
    name: &'a [u8],
    count: &'a [u8],
    sum: &'a [u8],
    squares: &'a [u8],
    least: &'a [u8],
    greatest: &'a [u8],
) -> [&'a [u8]; 13]
    ensures { map (λ p. p.now) result ≡ codes "batch " ∷ name.now ∷ codes " " ∷ count.now ∷ codes " "
        ∷ sum.now ∷ codes " " ∷ squares.now ∷ codes " " ∷ least.now ∷ codes " " ∷ greatest.now
        ∷ codes "\n" ∷ [] }
{
    [
        b"batch ", name, b" ", count, b" ", sum, b" ", squares, b" ", least, b" ", greatest, b"\n",
    ]
}

/// Pushes the line of a reward.
#[tactic(auto, unfolding(crate::specs::Texts::batch_line))]
fn push_summary(text: &mut Vec<u8>, reward: &Reward, summary: Summary) -> Result<(), NoMemory>
    ensures { OnOk result (text.new.items ≡ text.old.items ++ batch_line reward.now.name summary) }
{
    let (mut count, mut sum, mut squares) = (Buffer::new(), Buffer::new(), Buffer::new());
    let (mut least, mut greatest) = (Buffer::new(), Buffer::new());
    let pieces = line_pieces(
        reward.name.as_bytes(),
        count.format(summary.count).as_bytes(),
        sum.format(summary.sum).as_bytes(),
        squares_text(summary.squares, &mut squares),
        number_text(summary.least, &mut least),
        number_text(summary.greatest, &mut greatest),
    );
    push_pieces(text, &pieces)
}

/// The text of a batch: a line for the runs, and one for each of the network's rewards.
pub fn batch_text(alloc: Global, flat: &Flat, batch: &Batch) -> Result<Vec<u8>, NoMemory>
    requires { length batch.now.rewards ≡ length flat.now.rewards }
    ensures { IfOk result (λ text. text.items ≡ batch_text flat.now batch.now) }
{
    let mut text = Vec::new(alloc);
    push_runs(&mut text, batch.runs, batch.stopped)?;
    let rewards = flat.rewards();
    'rewards: for r in 0..rewards.len() {
        push_summary(&mut text, &rewards[r], batch.rewards[r])?;
    }
    Ok(text)
}
