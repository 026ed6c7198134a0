// The kind of rows: its tests by number, and what can be met and failed.
use crate::telling::{answers, number};
use std::test::Fail;
use symbols::{Kind, Row, RowKind, RowTest};

// Widths from the lowest to the highest, the first byte of the named hooks and of the wanted bits, and what adding the test answers: its number, or that of the refusal.
const TESTS: [(u16, u16, u8, u8, Result<u8, u8>); 13] = [
    (0, 256, 0, 0, Ok(1)),
    (0, 255, 0, 0, Ok(2)),
    (1, 256, 0, 0, Ok(3)),
    (0, 256, 16, 0, Ok(4)),
    (0, 256, 16, 16, Ok(5)),
    (0, 5, 16, 16, Ok(6)),
    (0, 4, 16, 16, Ok(7)),
    (0, 4, 16, 0, Ok(8)),
    (256, 256, 0, 0, Ok(9)),
    (0, 0, 255, 0, Ok(10)),
    (5, 4, 0, 0, Err(45)),
    (0, 257, 0, 0, Err(45)),
    (0, 256, 1, 3, Err(45)),
];

// A test of the kind of those, and whether it can be met and failed.
const ANSWERS: [(u8, bool, bool); 14] = [
    (0, true, false),
    (1, true, false),
    (2, true, true),
    (3, true, true),
    (4, true, true),
    (5, true, true),
    (6, true, true),
    (7, false, true),
    (8, true, true),
    (9, true, true),
    (10, true, true),
    (11, false, true),
    (64, false, true),
    (255, false, true),
];

// A width, the byte of the row, a test, and whether the row meets it.
const MEETS: [(usize, u8, u8, bool); 9] = [
    (5, 16, 0, true),
    (5, 16, 3, true),
    (5, 16, 4, false),
    (5, 16, 5, true),
    (5, 16, 6, true),
    (5, 16, 8, false),
    (4, 15, 4, true),
    (4, 15, 5, false),
    (4, 15, 8, true),
];

// The test with these widths, and these hooks among the first eight.
fn test_of(lowest: u16, highest: u16, named: u8, wanted: u8) -> RowTest {
    let mut test = RowTest {
        lowest,
        highest,
        named: [0; 32],
        wanted: [0; 32],
    };
    test.named[0] = named;
    test.wanted[0] = wanted;
    test
}

#[test]
fn answers_of_rows(rt: HostRuntime) -> Result<(), Fail> {
    let mut kind = RowKind::new(rt.alloc())?;
    for (lowest, highest, named, wanted, answer) in TESTS {
        assert_eq!(rt;
            kind.add(test_of(lowest, highest, named, wanted))
                .map_err(number),
            answer
        );
    }
    for (t, possible, avoidable) in ANSWERS {
        let mut place = Row::new();
        assert!(rt;
            answers(&kind, t, &mut place, possible, avoidable),
            "test {t}"
        );
    }
    for (width, byte, t, meets) in MEETS {
        let mut row = Row::new();
        assert_eq!(rt; row.load(width, &[byte]).map_err(number), Ok(()));
        assert_eq!(rt; kind.test(t, &row), meets);
    }
    Ok(())
}

#[test]
fn sixty_four_of_rows(rt: HostRuntime) -> Result<(), Fail> {
    let mut kind = RowKind::new(rt.alloc())?;
    for n in 1..64u8 {
        assert_eq!(rt;
            kind.add(test_of(n as u16, n as u16, 0, 0)).map_err(number),
            Ok(n)
        );
    }
    assert_eq!(rt; kind.add(test_of(5, 4, 0, 0)).map_err(number), Err(46));
    assert_eq!(rt; kind.tests(), 64);
    let mut row = Row::new();
    assert_eq!(rt; row.load(63, &[0; 8]).map_err(number), Ok(()));
    assert!(rt; kind.test(63, &row) && !kind.test(62, &row) && !kind.test(64, &row));
    Ok(())
}
