//! The lines of rewards.

ghost use Rattle.std.specs.Prelude.{◌≡◌, ◌∷◌, [], Some, codes, IfOk};
ghost use Rattle.san_report.specs.Lines.{joined, reward_line};
ghost use Rattle.san_reward.specs.declared.worth.Worth.TheVariants.{Mean};
ghost use Rattle.san_report.specs.Puts.{Wrote};

use crate::pieces::put_pieces;
use crate::vec_sink::VecSink;
use itoa::Buffer;
use san_base::{NoMemory, Sink};
use san_net::Reward;
use san_reward::Worth;
use std::alloc::Global;

fn put_word<K: Sink>(sink: &mut K, name: &[u8], word: &[u8]) -> bool
    ensures { Wrote result (K.held sink.old) (K.held sink.new) (K.faults sink.old)
        (K.faults sink.new) (joined (codes "reward " ∷ name.now ∷ codes " " ∷ word.now ∷ codes "\n"
        ∷ [])) }
{
    put_pieces(sink, &[b"reward ", name, b" ", word, b"\n"])
}

#[tactic(auto, unfolding(crate::specs::Lines::reward_line))]
fn put_mean<K: Sink>(sink: &mut K, name: &[u8], sum: i128, ticks: u64) -> bool
    ensures { Wrote result (K.held sink.old) (K.held sink.new) (K.faults sink.old)
        (K.faults sink.new) (reward_line name.now (Some (Mean sum ticks))) }
{
    let (mut above, mut below) = (Buffer::new(), Buffer::new());
    put_pieces(
        sink,
        &[
            b"reward ",
            name,
            b" ",
            above.format(sum).as_bytes(),
            b"/",
            below.format(ticks).as_bytes(),
            b"\n",
        ],
    )
}

/// Writes the line of a reward. A run that stopped has no worth.
#[tactic(auto, unfolding(crate::specs::Lines::reward_line))]
pub fn put_reward<K: Sink>(sink: &mut K, reward: &Reward, worth: Option<Worth>) -> bool
    ensures { Wrote result (K.held sink.old) (K.held sink.new) (K.faults sink.old)
        (K.faults sink.new) (reward_line reward.now.name worth) }
{
    let name = reward.name.as_bytes();
    match worth {
        None => put_word(sink, name, b"none"),
        Some(Worth::Beyond) => put_word(sink, name, b"beyond"),
        Some(Worth::Fault) => put_word(sink, name, b"fault"),
        Some(Worth::Sum(sum)) => {
            let mut digits = Buffer::new();
            put_word(sink, name, digits.format(sum).as_bytes())
        }
        Some(Worth::Mean(sum, ticks)) => put_mean(sink, name, sum, ticks),
    }
}

/// The line of a reward. A run that stopped has no worth.
pub fn reward_line(
    alloc: Global,
    reward: &Reward,
    worth: Option<Worth>,
) -> Result<Vec<u8>, NoMemory>
    ensures { IfOk result (λ text. text.items ≡ reward_line reward.now.name worth) }
{
    let mut text = VecSink::new(alloc);
    if put_reward(&mut text, reward, worth) {
        Ok(text.bytes)
    } else {
        Err(NoMemory)
    }
}
