// Rows: loads at the edges, and what a row reads afterwards.
use crate::telling::number;
use symbols::Row;

// A width, how many bytes of 0 are given for it, and what loading them answers.
const LOADS: [(usize, usize, Result<(), u8>); 24] = [
    (0, 0, Ok(())),
    (0, 1, Err(43)),
    (1, 1, Ok(())),
    (1, 0, Err(43)),
    (1, 2, Err(43)),
    (7, 1, Ok(())),
    (7, 0, Err(43)),
    (8, 1, Ok(())),
    (8, 2, Err(43)),
    (9, 2, Ok(())),
    (9, 1, Err(43)),
    (9, 3, Err(43)),
    (255, 32, Ok(())),
    (255, 31, Err(43)),
    (255, 33, Err(43)),
    (256, 32, Ok(())),
    (256, 31, Err(43)),
    (256, 33, Err(43)),
    (257, 33, Err(42)),
    (257, 32, Err(42)),
    (257, 34, Err(42)),
    (65536, 0, Err(42)),
    (18446744073709551615, 0, Err(42)),
    (18446744073709551609, 1, Err(42)),
];

// A width up to 8, the byte that is given for it, and what loading it answers.
const BITS: [(usize, u8, Result<(), u8>); 8] = [
    (1, 1, Ok(())),
    (1, 2, Err(44)),
    (4, 15, Ok(())),
    (4, 16, Err(44)),
    (4, 255, Err(44)),
    (7, 127, Ok(())),
    (7, 128, Err(44)),
    (8, 255, Ok(())),
];

// A load has the width given, or is refused and leaves the row as it was.
#[test]
fn loads(rt: HostRuntime) {
    let zeros = [0u8; 40];
    for (width, count, answer) in LOADS {
        if count <= 40 {
            let mut row = Row::new();
            assert_eq!(rt; row.load(3, &[5]).map_err(number), Ok(()));
            assert_eq!(rt; row.load(width, &zeros[0..count]).map_err(number), answer);
            assert_eq!(rt; row.width(), if answer.is_ok() { width } else { 3 });
            assert_eq!(rt; row.hook(2), answer.is_err());
        }
    }
}

// A bit at or above the width is refused.
#[test]
fn bits_at_the_width(rt: HostRuntime) {
    for (width, byte, answer) in BITS {
        let mut row = Row::new();
        assert_eq!(rt; row.load(width, &[byte]).map_err(number), answer);
        assert_eq!(rt; row.hook(0), answer.is_ok());
    }
}

// A load of a shorter row leaves nothing of the earlier one.
#[test]
fn shorter_load(rt: HostRuntime) {
    let mut row = Row::new();
    assert!(rt; !row.hook(0) && row.width() == 0);
    assert_eq!(rt; row.load(256, &[255; 32]).map_err(number), Ok(()));
    assert!(rt; row.hook(0) && row.hook(255) && !row.hook(256));
    assert_eq!(rt; row.load(4, &[6]).map_err(number), Ok(()));
    for h in 0..300usize {
        assert_eq!(rt; row.hook(h), h == 1 || h == 2);
    }
}

// Hook h is the bit of value 2^(h mod 8) in byte h / 8.
#[test]
fn hooks_by_number(rt: HostRuntime) {
    let mut row = Row::new();
    assert_eq!(rt; row.load(20, &[1, 128, 4]).map_err(number), Ok(()));
    for h in 0..300usize {
        assert_eq!(rt; row.hook(h), h == 0 || h == 15 || h == 18);
    }
}
