// A kind that is asked at most once whether a test is possible.
ghost use Rattle.std.specs.Prelude.{◌≡◌, ℕ, Bool, None, Some, slice_index_or};

use symbols::Kind;

// A leaf names one of this many tests.
const TESTS: usize = 256;

// A kind, and what it said of the tests that it was asked for: it may take long to tell, and many leaves may name one test.
#[derive(Drop)]
pub(crate) struct Asked<'a, K: Kind> {
    kind: &'a K,
    known: [Option<bool>; TESTS],
    // what is known is what the kind says
    ghost right: { (t : ℕ) (b : Bool) → slice_index_or known t None ≡ Some b → b ≡ K.Kind.can_meet kind.now t },
}

impl<'a, K: Kind> Asked<'a, K> {
    // A kind that was asked for no test yet.
    pub(crate) fn new(kind: &'a K) -> Asked<'a, K>
        ensures { result.kind.now ≡ kind.now }
    {
        Asked {
            kind,
            known: [None; TESTS],
        }
    }

    // Whether the test is possible.
    pub(crate) fn possible(&mut self, test: u8) -> bool
        ensures answer { result ≡ K.Kind.can_meet self.old.kind.now test }
        ensures kind { self.new.kind.now ≡ self.old.kind.now }
    {
        if let Some(answer) = self.known[test as usize] {
            return answer;
        }
        let answer = self.kind.possible(test);
        self.known[test as usize] = Some(answer);
        answer
    }
}
