//! A chain of steps, each of which goes from one number to another.

ghost use Rattle.std.specs.Prelude.{◌≡◌};

use san_base::Linked;
use san_chain::Chain;
use std::test::Fail;

#[derive(Clone, Copy, Debug, PartialEq, Eq)]
struct Step {
    from: u32,
    to: u32,
}

impl Linked for Step {
    type State = u32;

    ghost base = { λ s. s.from };

    ghost end = { λ s. s.to };

    fn base(&self) -> &u32 {
        &self.from
    }

    fn end(&self) -> &u32 {
        &self.to
    }
}

fn step_of(from: u32, to: u32) -> Step
    ensures { result ≡ record { from = from; to = to } }
{
    Step { from, to }
}

#[test]
fn steps_in_a_row(rt: HostRuntime) -> Result<(), Fail> {
    let mut chain: Chain<Step> = Chain::new(rt.alloc());
    assert_eq!(rt; (chain.len(), chain.head(), chain.end()), (0, None, None));
    chain.reserve().ok().ok_or("memory")?;
    chain.push(4, step_of(1, 2)).ok().ok_or("memory")?;
    chain.push(6, step_of(2, 3)).ok().ok_or("memory")?;
    chain.push(7, step_of(3, 9)).ok().ok_or("memory")?;
    assert_eq!(rt; chain.len(), 3);
    assert_eq!(rt; chain.head().copied(), Some(step_of(1, 2)));
    assert_eq!(rt; chain.end().copied(), Some(9));
    assert_eq!(rt;
        chain.at(1).map(|(pos, piece)| (pos, *piece)),
        Some((6, step_of(2, 3)))
    );
    assert_eq!(rt; chain.at(3).map(|(pos, piece)| (pos, *piece)), None);
    assert_eq!(rt; chain.pop_front(), Some((4, step_of(1, 2))));
    assert_eq!(rt; chain.cut(1), 1);
    assert_eq!(rt; chain.end().copied(), Some(3));
    Ok(())
}
