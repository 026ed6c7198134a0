// Kinds that can show a symbol: one that meets a test, or one that fails it.
ghost use Rattle.std.specs.Prelude.{◌≡◌, true, false};
ghost use Rattle.symbols.specs.Kinds.{Shown};

use crate::kind::Kind;

// A kind that writes into a place a symbol that meets a test, or one that fails it. Where there is none it says no, and the place stays.
// A symbol is written into the caller's place and is no `Option` that is returned: a rule of the project.
pub trait Showing: Kind {
    // Writes a symbol that meets the test. Says whether there is one.
    fn example(&self, t: u8, place: &mut Self::Symbol) -> bool
        ensures answer { result ≡ Self.Kind.can_meet self.now t }
        ensures shown { Shown (Self.Kind.meets self.now t) true place.old place.new result };

    // Writes a symbol that fails the test. Says whether there is one.
    fn counterexample(&self, t: u8, place: &mut Self::Symbol) -> bool
        ensures answer { result ≡ Self.Kind.can_fail self.now t }
        ensures shown { Shown (Self.Kind.meets self.now t) false place.old place.new result };
}
