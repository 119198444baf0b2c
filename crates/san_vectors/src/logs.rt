//! First values that were read of some places, and the lists that agree with them; worked out by hand.

use san_base::PlaceId;
use san_log::ReadLog;
use std::test::Fail;

#[test]
fn first_values_stay(rt: HostRuntime) -> Result<(), Fail> {
    let mut log = ReadLog::new(rt.alloc(), 2).ok().ok_or("memory")?;
    assert_eq!(rt;
        (log.len(), log.get(PlaceId(7)), log.entry(0)),
        (0, None, None)
    );
    assert_eq!(rt; log.agrees(&[]), true);
    log.note(PlaceId(2), 5);
    log.note(PlaceId(0), 0);
    log.note(PlaceId(2), 6);
    assert_eq!(rt; log.len(), 2);
    assert_eq!(rt; (log.get(PlaceId(2)), log.get(PlaceId(1))), (Some(5), None));
    assert_eq!(rt; log.entry(0), Some((PlaceId(2), 5)));
    assert_eq!(rt; log.entry(1), Some((PlaceId(0), 0)));
    assert_eq!(rt; log.entry(2), None);
    assert_eq!(rt; log.agrees(&[0, 9, 5]), true);
    assert_eq!(rt; log.agrees(&[0, 9, 6]), false);
    assert_eq!(rt; log.agrees(&[1, 9, 5]), false);
    assert_eq!(rt; log.agrees(&[0, 9]), false);
    Ok(())
}
