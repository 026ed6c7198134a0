// What one test of symbols is: which symbols meet it, and a symbol that meets it or fails it.
ghost use Rattle.std.specs.Prelude.{◌≡◌, Bool, true, false, not, Decides};
ghost use Rattle.refusals.specs.declared.Refusal.{Refusal};
ghost use Rattle.symbols.specs.Kinds.{SomeMeets, SomeFails};

use refusals::Refusal;

// A test of symbols. One that keeps its rules is sound, and only a sound one gets into a list of tests.
pub trait SymbolTest: Copy {
    type Symbol: Copy;

    // whether a symbol meets a test
    ghost meets: { Self → Self.Symbol → Bool };

    // whether a test keeps its rules
    ghost sound: { Self → Bool };

    // whether some symbol meets a sound test
    ghost can_meet: { Self → Bool };

    // whether every symbol meets a sound test
    ghost all_meet: { Self → Bool };

    // the test that every symbol meets
    ghost EVERY: { Self };

    const EVERY: Self;

    // why a test that is not sound is refused
    ghost REFUSAL: { Refusal };

    const REFUSAL: Refusal;

    // some symbol
    ghost SOME_SYMBOL: { Self.Symbol };

    const SOME_SYMBOL: Self::Symbol;

    // Whether the symbol meets the test.
    fn holds(&self, s: &Self::Symbol) -> bool
        ensures { result ≡ meets self.now s.now };

    // Whether the test keeps its rules.
    fn is_sound(&self) -> bool
        ensures { result ≡ sound self.now };

    // Whether some symbol meets the test, where it is sound.
    fn can_be_met(&self) -> bool
        ensures { result ≡ can_meet self.now };

    // Whether every symbol meets the test, where it is sound.
    fn is_every(&self) -> bool
        ensures { result ≡ all_meet self.now };

    // A symbol that meets the test, where it is sound and some symbol does.
    fn inside(&self) -> Self::Symbol
        ensures { sound self.now ≡ true → can_meet self.now ≡ true → meets self.now result ≡ true };

    // A symbol that fails the test, where it is sound and some symbol does.
    fn outside(&self) -> Self::Symbol
        ensures { sound self.now ≡ true → all_meet self.now ≡ false → meets self.now result ≡ false };

    // the test that every symbol meets is sound
    ghost every_sound: { sound EVERY ≡ true };

    // every symbol meets it
    ghost every_met: { all_meet EVERY ≡ true };

    // `can_meet` is true of a sound test exactly where some symbol meets it
    ghost meetable: { (b : Self) → sound b ≡ true → Decides (can_meet b) (SomeMeets (meets b)) };

    // `all_meet` is false of a sound test exactly where some symbol fails it
    ghost failable: { (b : Self) → sound b ≡ true → Decides (not (all_meet b)) (SomeFails (meets b)) };
}
