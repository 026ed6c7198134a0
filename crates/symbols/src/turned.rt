// A kind with the opposites of its tests: test n + t is met by the symbols that fail test t beneath.
ghost use Rattle.std.specs.Prelude.{◌≡◌, ◌*◌, ◌<◌, ◌≤◌, true, false, not, MatchResult};
ghost use Rattle.refusals.specs.declared.Refusal.TheVariants.{TooManyTests};
ghost use Rattle.symbols.specs.Turned.{half_of, place_of, turned_at};
ghost use Rattle.symbols.specs.Opposites.{place_meetable, place_failable};
ghost use Rattle.std.proofs.Common.{rules};

use crate::kind::Kind;
use crate::showing::Showing;
use refusals::{Fault, Refusal};

// The most tests that a kind to be turned may have.
const MAX_TURNED: usize = 128;

// A kind of 2n tests over one of n: its tests, and after them their opposites.
#[derive(Drop)]
pub struct Turned<K> {
    kind: K,
}

// Why a kind was not turned, and the kind.
#[derive(Drop)]
pub struct NotTurned<K> {
    pub fault: Fault,
    pub kind: K,
}

// Where a test of a turned kind falls.
#[derive(Clone, Copy)]
enum Place {
    // the test of this number beneath
    Same(u8),
    // the opposite of the test of this number beneath
    Opposite(u8),
    // past the tests
    Past,
}

impl<K: Kind> Turned<K> {
    // The kind with the opposites of its tests, unless it has over 128.
    pub fn over(kind: K) -> Result<Turned<K>, NotTurned<K>>
        ensures { MatchResult result (λ t. (K.Kind.count kind ≤ 128) × (t.kind ≡ kind)) (λ e. (128 < K.Kind.count kind) × (e.fault ≡ record { refusal = TooManyTests; place = 0 }) × (e.kind ≡ kind)) }
    {
        if kind.tests() > MAX_TURNED {
            return Err(NotTurned {
                fault: Refusal::TooManyTests.at(0),
                kind,
            });
        }
        Ok(Turned { kind })
    }

    // How many tests beneath are turned.
    fn half(&self) -> u8
        ensures { result ≡ half_of (K.Kind.count self.now.kind) }
    {
        self.kind.tests().min(MAX_TURNED) as u8
    }

    // Where a test falls.
    fn place(&self, t: u8) -> Place
        ensures { result ≡ place_of (half_of (K.Kind.count self.now.kind)) t }
    {
        let n = self.half();
        if t < n {
            Place::Same(t)
        } else if t - n < n {
            Place::Opposite(t - n)
        } else {
            Place::Past
        }
    }
}

// The tests of the kind beneath, and after them their opposites.
// Each call matches the place itself, here and for showing: a helper would take three closures, and what each is for could no longer be read at its arm.
impl<K: Kind> Kind for Turned<K> {
    type Symbol = K::Symbol;

    ghost count = { λ k. 2 * half_of (K.Kind.count k.kind) };

    ghost meets = { λ k t s. turned_at (K.Kind.count k.kind) (λ u. K.Kind.meets k.kind u s) (λ u. not (K.Kind.meets k.kind u s)) false t };

    ghost can_meet = { λ k t. turned_at (K.Kind.count k.kind) (K.Kind.can_meet k.kind) (K.Kind.can_fail k.kind) false t };

    ghost can_fail = { λ k t. turned_at (K.Kind.count k.kind) (K.Kind.can_fail k.kind) (K.Kind.can_meet k.kind) true t };

    ghost bounds = { Prim.search rules };

    ghost past = { Prim.search rules };

    ghost every = { Prim.search rules };

    ghost inhabited = { Prim.search rules };

    ghost meetable = { λ k t. place_meetable (K.Kind.inhabited k.kind) (K.Kind.meetable k.kind) (K.Kind.failable k.kind) (place_of (half_of (K.Kind.count k.kind)) t) };

    ghost failable = { λ k t. place_failable (K.Kind.inhabited k.kind) (K.Kind.meetable k.kind) (K.Kind.failable k.kind) (place_of (half_of (K.Kind.count k.kind)) t) };

    fn tests(&self) -> usize {
        2 * self.half() as usize
    }

    fn test(&self, t: u8, s: &K::Symbol) -> bool {
        match self.place(t) {
            Place::Same(u) => self.kind.test(u, s),
            Place::Opposite(u) => !self.kind.test(u, s),
            Place::Past => false,
        }
    }

    fn possible(&self, t: u8) -> bool {
        match self.place(t) {
            Place::Same(u) => self.kind.possible(u),
            Place::Opposite(u) => self.kind.avoidable(u),
            Place::Past => false,
        }
    }

    fn avoidable(&self, t: u8) -> bool {
        match self.place(t) {
            Place::Same(u) => self.kind.avoidable(u),
            Place::Opposite(u) => self.kind.possible(u),
            Place::Past => true,
        }
    }
}

// An example of a test is a counterexample of its opposite. Past the tests every symbol is one.
impl<K: Showing> Showing for Turned<K> {
    fn example(&self, t: u8, place: &mut K::Symbol) -> bool {
        match self.place(t) {
            Place::Same(u) => self.kind.example(u, place),
            Place::Opposite(u) => self.kind.counterexample(u, place),
            Place::Past => false,
        }
    }

    fn counterexample(&self, t: u8, place: &mut K::Symbol) -> bool {
        match self.place(t) {
            Place::Same(u) => self.kind.counterexample(u, place),
            Place::Opposite(u) => self.kind.example(u, place),
            Place::Past => self.kind.example(0, place),
        }
    }
}
