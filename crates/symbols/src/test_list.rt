// Lists of tests. One is a kind: its test t is the t-th of the list.
ghost use Rattle.std.specs.Prelude.{◌≡◌, ◌≤◌, true, not, [], ◌∷◌, length, Some, IfOk, IfSome, vec_len, vec_capacity, slice_get};
ghost use Rattle.std.specs.List.{list_all};
ghost use Rattle.std.specs.Option.{option_copied};
ghost use Rattle.std.proofs.Common.{rules};
ghost use Rattle.symbols.specs.Lists.{has_at, add_answer, added_to};
ghost use Rattle.symbols.specs.ListLaws.{past_fails, list_meetable, list_failable, first_met};

use crate::kind::Kind;
use crate::showing::Showing;
use crate::symbol_test::SymbolTest;
use refusals::{Fault, Refusal};
use std::alloc::{AllocError, Global};

// The most tests that a list has.
const MAX_TESTS: usize = 64;

// A list of 1 to 64 tests, the first of which every symbol meets.
#[derive(Drop)]
pub struct TestList<T: SymbolTest> {
    tests: Vec<T>,
    // there are 1 to 64 tests
    ghost some: { 1 ≤ vec_len tests },
    ghost few: { vec_len tests ≤ 64 },
    // the first is the one that every symbol meets
    ghost first: { slice_get tests.items 0 ≡ Some T.EVERY },
    // each keeps its rules
    ghost sound: { list_all T.sound tests.items ≡ true },
    // there is room for 64, so that adding never allocates
    ghost room: { 64 ≤ vec_capacity tests },
}

impl<T: SymbolTest> TestList<T> {
    // A kind with room for all its tests, and with test 0 alone.
    pub fn new(heap: Global) -> Result<TestList<T>, AllocError>
        ensures { IfOk result (λ k. k.tests.items ≡ T.EVERY ∷ []) }
    {
        let mut tests = Vec::with_capacity(heap, MAX_TESTS)?;
        tests.push_reserved(T::EVERY);
        Ok(TestList { tests })
    }

    // Adds a test, and tells its number.
    #[tactic(auto, using(crate::proofs::Added::first_push, crate::proofs::Added::all_push))]
    pub fn add(&mut self, test: T) -> Result<u8, Fault>
        ensures answer { result ≡ add_answer self.old.tests.items (T.sound test) T.REFUSAL }
        ensures after { self.new.tests.items ≡ added_to self.old.tests.items test result }
    {
        let count = self.tests.len();
        if count >= MAX_TESTS {
            return Err(Refusal::KindFull.at(0));
        }
        if !test.is_sound() {
            return Err(T::REFUSAL.at(0));
        }
        self.tests.push_reserved(test);
        Ok(count as u8)
    }

    // Test t, if the list has it.
    fn test_at(&self, t: u8) -> Option<&T>
        ensures test { option_copied result ≡ slice_get self.now.tests.items t }
        ensures sound { IfSome result (λ b. T.sound b.now ≡ true) }
    {
        self.tests.get(t as usize)
    }
}

// The symbols of the tests, with the tests of the list. A number past the list is met by no symbol.
impl<T: SymbolTest> Kind for TestList<T> {
    type Symbol = T::Symbol;

    ghost count = { λ k. length k.tests.items };

    ghost meets = { λ k t s. has_at (λ b. T.meets b s) k.tests.items t };

    ghost can_meet = { λ k t. has_at T.can_meet k.tests.items t };

    ghost can_fail = { λ k t. not (has_at T.all_meet k.tests.items t) };

    ghost bounds = { Prim.search rules };

    ghost past = { Prim.search (rules, past_fails) };

    ghost every = { λ k s. first_met T.all_meet T.failable T.EVERY T.every_sound T.every_met k.tests.items k.first s };

    ghost inhabited = { λ k. ∣ T.SOME_SYMBOL ∣₁ };

    ghost meetable = { λ k t. list_meetable T.meetable k.tests.items k.sound t };

    ghost failable = { λ k t. list_failable T.all_meet T.failable T.SOME_SYMBOL k.tests.items k.sound t };

    fn tests(&self) -> usize {
        self.tests.len()
    }

    fn test(&self, t: u8, s: &T::Symbol) -> bool {
        self.test_at(t).is_some_and(|test| test.holds(s))
    }

    fn possible(&self, t: u8) -> bool {
        self.test_at(t).is_some_and(|test| test.can_be_met())
    }

    fn avoidable(&self, t: u8) -> bool {
        !self.test_at(t).is_some_and(|test| test.is_every())
    }
}

// Shows a symbol inside a test, or one outside.
impl<T: SymbolTest> Showing for TestList<T> {
    fn example(&self, t: u8, place: &mut T::Symbol) -> bool {
        match self.test_at(t) {
            Some(test) if test.can_be_met() => {
                *place = test.inside();
                true
            }
            _ => false,
        }
    }

    fn counterexample(&self, t: u8, place: &mut T::Symbol) -> bool {
        match self.test_at(t) {
            Some(test) if test.is_every() => false,
            Some(test) => {
                *place = test.outside();
                true
            }
            None => {
                *place = T::SOME_SYMBOL;
                true
            }
        }
    }
}
