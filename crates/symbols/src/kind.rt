// What a kind of symbol is: a type of symbols, and numbered tests that a symbol meets or fails.
ghost use Rattle.std.specs.Prelude.{◌≡◌, ℕ, ◌≤◌, Bool, true, false, Decides};
ghost use Rattle.symbols.specs.Kinds.{SomeMeets, SomeFails};

// A type of symbols with 1 to 256 tests, numbered from 0. Every symbol meets test 0.
pub trait Kind {
    type Symbol;

    // how many tests there are
    ghost count: { Self → ℕ };

    // whether a symbol meets a test
    ghost meets: { Self → ℕ → Self.Symbol → Bool };

    // whether some symbol meets a test
    ghost can_meet: { Self → ℕ → Bool };

    // whether some symbol fails a test
    ghost can_fail: { Self → ℕ → Bool };

    // How many tests there are.
    fn tests(&self) -> usize
        ensures { result ≡ count self.now };

    // Whether the symbol meets the test.
    fn test(&self, t: u8, s: &Self::Symbol) -> bool
        ensures { result ≡ meets self.now t s.now };

    // Whether some symbol meets the test.
    fn possible(&self, t: u8) -> bool
        ensures { result ≡ can_meet self.now t };

    // Whether some symbol fails the test.
    fn avoidable(&self, t: u8) -> bool
        ensures { result ≡ can_fail self.now t };

    // there are 1 to 256 tests
    ghost bounds: { (k : Self) → (1 ≤ count k) × (count k ≤ 256) };

    // a number at or above the count is met by no symbol
    ghost past: { (k : Self) (t : ℕ) (s : Self.Symbol) → count k ≤ t → meets k t s ≡ false };

    // every symbol meets test 0
    ghost every: { (k : Self) (s : Self.Symbol) → meets k 0 s ≡ true };

    // there is a symbol
    ghost inhabited: { (k : Self) → ∥ Self.Symbol ∥₁ };

    // `can_meet` is true exactly where some symbol meets the test
    ghost meetable: { (k : Self) (t : ℕ) → Decides (can_meet k t) (SomeMeets (meets k t)) };

    // `can_fail` is true exactly where some symbol fails the test
    ghost failable: { (k : Self) (t : ℕ) → Decides (can_fail k t) (SomeFails (meets k t)) };
}
