//! What a piece knows of its cells, set, cleared and taken over; worked out by hand.

use san_mark::Overlay;
use std::test::Fail;

#[test]
fn values_set_and_forgotten(rt: HostRuntime) -> Result<(), Fail> {
    let mut cells = Overlay::new(rt.alloc(), 3).ok().ok_or("memory")?;
    assert_eq!(rt;
        (cells.get(0), cells.get(1), cells.get(2)),
        (None, None, None)
    );
    cells.set(1, 5);
    cells.set(2, 0);
    cells.set(1, 2147483647);
    assert_eq!(rt;
        (cells.get(0), cells.get(1), cells.get(2)),
        (None, Some(2147483647), Some(0))
    );
    let mut held = Overlay::new(rt.alloc(), 3).ok().ok_or("memory")?;
    held.set(0, 9);
    held.take_over(&cells);
    cells.clear();
    assert_eq!(rt;
        (cells.get(0), cells.get(1), cells.get(2)),
        (None, None, None)
    );
    assert_eq!(rt;
        (held.get(0), held.get(1), held.get(2)),
        (None, Some(2147483647), Some(0))
    );
    Ok(())
}
