// What the tests share: the number of a refusal, a test of bytes, and whether a kind answers so and shows what it says.
use refusals::Fault;
use symbols::{ByteTest, Showing};

// The number of the refusal of a fault.
pub(crate) fn number(fault: Fault) -> u8 {
    fault.refusal.number()
}

// The test of the bytes from the lowest to the highest.
pub(crate) fn bytes(lowest: u8, highest: u8) -> ByteTest {
    ByteTest { lowest, highest }
}

// Whether the kind says so of the test, and shows a symbol exactly where it says that there is one.
pub(crate) fn answers<K: Showing>(
    kind: &K,
    t: u8,
    place: &mut K::Symbol,
    possible: bool,
    avoidable: bool,
) -> bool {
    kind.possible(t) == possible
        && kind.avoidable(t) == avoidable
        && kind.example(t, place) == possible
        && (!possible || kind.test(t, place))
        && kind.counterexample(t, place) == avoidable
        && (!avoidable || !kind.test(t, place))
}
