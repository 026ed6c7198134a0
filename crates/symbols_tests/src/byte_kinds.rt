// The kind of bytes: its tests by number, and what can be met and failed.
use crate::telling::{answers, bytes, number};
use std::test::Fail;
use symbols::{ByteKind, Kind};

// The lowest and the highest byte of a test, and what adding it answers: its number, or that of the refusal.
const TESTS: [(u8, u8, Result<u8, u8>); 5] = [
    (0, 254, Ok(1)),
    (1, 255, Ok(2)),
    (0, 255, Ok(3)),
    (7, 7, Ok(4)),
    (8, 7, Err(41)),
];

// A test of the kind of those, and whether it can be met and failed.
const ANSWERS: [(u8, bool, bool); 8] = [
    (0, true, false),
    (1, true, true),
    (2, true, true),
    (3, true, false),
    (4, true, true),
    (5, false, true),
    (64, false, true),
    (255, false, true),
];

#[test]
fn answers_of_bytes(rt: HostRuntime) -> Result<(), Fail> {
    let mut kind = ByteKind::new(rt.alloc())?;
    for (lowest, highest, answer) in TESTS {
        assert_eq!(rt; kind.add(bytes(lowest, highest)).map_err(number), answer);
    }
    for (t, possible, avoidable) in ANSWERS {
        let mut place = 9;
        assert!(rt;
            answers(&kind, t, &mut place, possible, avoidable),
            "test {t}"
        );
    }
    assert!(rt; kind.test(4, &7) && !kind.test(4, &6) && !kind.test(4, &8));
    Ok(())
}

#[test]
fn sixty_four_of_bytes(rt: HostRuntime) -> Result<(), Fail> {
    let mut kind = ByteKind::new(rt.alloc())?;
    for n in 1..64u8 {
        assert_eq!(rt; kind.add(bytes(n, n)).map_err(number), Ok(n));
    }
    assert_eq!(rt; kind.add(bytes(8, 7)).map_err(number), Err(46));
    assert_eq!(rt; kind.tests(), 64);
    assert!(rt; kind.test(63, &63) && !kind.test(63, &62) && !kind.test(64, &63));
    Ok(())
}
