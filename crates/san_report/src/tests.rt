//! Lines of rewards, with the least and the greatest numbers.

use crate::{put_reward, reward_line};
use san_base::{Name, NoMemory, SureSink, Tick};
use san_net::{Reward, Span};
use san_reward::Worth;
use std::alloc::Global;
use std::test::Fail;

fn lost(alloc: Global) -> Result<Reward, NoMemory> {
    Ok(Reward {
        name: Name::new(alloc, b"lost")?,
        atomic: 0,
        span: Span::At(Tick(1)),
    })
}

#[test]
fn reward_lines(rt: HostRuntime) -> Result<(), Fail> {
    let reward = lost(rt.alloc())?;
    let table: [(Option<Worth>, &str); 10] = [
        (None, "reward lost none\n"),
        (Some(Worth::Beyond), "reward lost beyond\n"),
        (Some(Worth::Fault), "reward lost fault\n"),
        (Some(Worth::Sum(0)), "reward lost 0\n"),
        (Some(Worth::Sum(-5)), "reward lost -5\n"),
        (
            Some(Worth::Sum(i128::MAX)),
            "reward lost 170141183460469231731687303715884105727\n",
        ),
        (
            Some(Worth::Sum(i128::MIN)),
            "reward lost -170141183460469231731687303715884105728\n",
        ),
        (Some(Worth::Mean(31, 10)), "reward lost 31/10\n"),
        (Some(Worth::Mean(-6, 4)), "reward lost -6/4\n"),
        (
            Some(Worth::Mean(0, u64::MAX)),
            "reward lost 0/18446744073709551615\n",
        ),
    ];
    for (worth, want) in table {
        let line = reward_line(rt.alloc(), &reward, worth)?;
        assert_eq!(rt; line.as_slice(), want.as_bytes(), "{worth:?}");
    }
    Ok(())
}

/// A sink that has no room for the whole line keeps the pieces before.
#[test]
fn a_line_that_is_cut(rt: HostRuntime) -> Result<(), Fail> {
    let reward = lost(rt.alloc())?;
    let mut sink = SureSink::new(rt.alloc(), 13)?;
    assert!(rt; !put_reward(&mut sink, &reward, Some(Worth::Sum(10))));
    assert_eq!(rt; sink.bytes(), b"reward lost ".as_slice());
    Ok(())
}
