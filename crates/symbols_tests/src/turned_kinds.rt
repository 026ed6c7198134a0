// Turned kinds: the opposites of tests, up to 256, and the refusal past 128.
use crate::plain::Plain;
use crate::telling::{answers, bytes, number};
use std::test::Fail;
use symbols::{ByteKind, Kind, Turned};

// A test of the turned kind of two tests, and whether it can be met and failed.
const ANSWERS: [(u8, bool, bool); 6] = [
    (0, true, false),
    (1, true, true),
    (2, false, true),
    (3, true, true),
    (4, false, true),
    (255, false, true),
];

#[test]
fn opposites(rt: HostRuntime) -> Result<(), Fail> {
    let mut kind = ByteKind::new(rt.alloc())?;
    assert_eq!(rt; kind.add(bytes(7, 9)).map_err(number), Ok(1));
    match Turned::over(kind) {
        Ok(turned) => {
            for (t, possible, avoidable) in ANSWERS {
                let mut place = 5;
                assert!(rt;
                    answers(&turned, t, &mut place, possible, avoidable),
                    "test {t}"
                );
            }
            assert!(rt;
                turned.tests() == 4
                    && turned.test(1, &8)
                    && !turned.test(3, &8)
                    && turned.test(3, &6)
            );
            Ok(())
        }
        Err(_) => Err(Fail::new("not turned")),
    }
}

#[test]
fn turned_to_256(rt: HostRuntime) -> Result<(), Fail> {
    let mut kind = ByteKind::new(rt.alloc())?;
    for n in 1..64u8 {
        assert_eq!(rt; kind.add(bytes(n, n)).map_err(number), Ok(n));
    }
    let Ok(once) = Turned::over(kind) else {
        return Err(Fail::new("64 tests are not turned"));
    };
    assert_eq!(rt; once.tests(), 128);
    let Ok(twice) = Turned::over(once) else {
        return Err(Fail::new("128 tests are not turned"));
    };
    assert_eq!(rt; twice.tests(), 256);
    assert!(rt;
        twice.test(63, &63)
            && !twice.test(127, &63)
            && !twice.test(191, &63)
            && twice.test(255, &63)
    );
    match Turned::over(twice) {
        Ok(_) => Err(Fail::new("256 tests are turned")),
        Err(back) => {
            assert_eq!(rt; back.fault.refusal.number(), 47);
            Ok(())
        },
    }
}

#[test]
fn not_turned_from_129(rt: HostRuntime) -> Result<(), Fail> {
    match Turned::over(Plain { mark: 7 }) {
        Ok(_) => Err(Fail::new("129 tests are turned")),
        Err(back) => {
            assert_eq!(rt; back.kind.mark, 7);
            assert_eq!(rt; back.fault.refusal.number(), 47);
            Ok(())
        }
    }
}
