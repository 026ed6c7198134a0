// The kind of rows: a test is a lowest and a highest width, and wanted bits of some named hooks.
ghost use Rattle.std.specs.Prelude.{◌≡◌, ◌<◌, true};
ghost use Rattle.refusals.specs.declared.Refusal.TheVariants.{BadRowTest};
ghost use Rattle.symbols.specs.Hooks.{every_between};
ghost use Rattle.symbols.specs.RowTests.{every_row, as_wanted, named_if_wanted, row_meets, is_sound, wants_below, is_every_row};
ghost use Rattle.symbols.specs.RowLaws.{every_sound, every_is, row_meetable, row_failable};
ghost use Rattle.symbols.specs.Rows.{fresh_row};

use crate::rows::{FRESH_ROW, MAX_WIDTH, Row, bit, none_from};
use crate::symbol_test::SymbolTest;
use crate::test_list::TestList;
use refusals::Refusal;

// The rows from the lowest to the highest width, both included, in which each named hook has its wanted bit.
// Hook h is the bit of value 2^(h mod 8) in byte h / 8.
#[derive(Clone, Copy, Debug, PartialEq, Eq)]
pub struct RowTest {
    pub lowest: u16,
    pub highest: u16,
    // two sets of 32 bytes and no list of hooks with a wanted bit: a rule of the project, fixed memory in the form that callers give;
    // nor a struct of their own, since a load reads bytes of any length by the same functions
    pub named: [u8; 32],
    pub wanted: [u8; 32],
}

// A list of 1 to 64 tests, the first of which every row meets.
pub type RowKind = TestList<RowTest>;

impl RowTest {
    // Whether each named hook has its wanted bit.
    fn agrees(&self, row: &Row) -> bool
        ensures { result ≡ every_between 0 256 (as_wanted self.now row.now) }
    {
        (0..MAX_WIDTH).all(|h| self.as_wanted(row, h))
    }

    // Whether a hook is not named, or has its wanted bit.
    fn as_wanted(&self, row: &Row, h: usize) -> bool
        requires { h < 256 }
        ensures { result ≡ as_wanted self.now row.now h }
    {
        !bit(&self.named, h) || row.hook(h) == bit(&self.wanted, h)
    }

    // Whether each hook with wanted 1 is named.
    fn names_wanted(&self) -> bool
        ensures { result ≡ every_between 0 256 (named_if_wanted self.now) }
    {
        (0..MAX_WIDTH).all(|h| self.names(h))
    }

    // Whether a hook is named, or its wanted bit is 0.
    fn names(&self, h: usize) -> bool
        requires { h < 256 }
        ensures { result ≡ named_if_wanted self.now h }
    {
        !bit(&self.wanted, h) || bit(&self.named, h)
    }
}

// The row of the highest width with the wanted bits meets a sound test if any row does.
impl SymbolTest for RowTest {
    type Symbol = Row;

    ghost meets = { row_meets };

    ghost sound = { is_sound };

    ghost can_meet = { wants_below };

    ghost all_meet = { is_every_row };

    ghost EVERY = { every_row };

    const EVERY: RowTest = RowTest {
        lowest: 0,
        highest: 256,
        named: [0; 32],
        wanted: [0; 32],
    };

    ghost REFUSAL = { BadRowTest };

    const REFUSAL: Refusal = Refusal::BadRowTest;

    ghost SOME_SYMBOL = { fresh_row };

    const SOME_SYMBOL: Row = FRESH_ROW;

    ghost every_sound = { every_sound };

    ghost every_met = { every_is };

    ghost meetable = { row_meetable };

    ghost failable = { row_failable };

    fn holds(&self, row: &Row) -> bool {
        let width = row.width();
        self.lowest as usize <= width && width <= self.highest as usize && self.agrees(row)
    }

    fn is_sound(&self) -> bool {
        self.lowest <= self.highest && self.highest as usize <= MAX_WIDTH && self.names_wanted()
    }

    // Each hook with wanted 1 has to lie below the highest width.
    fn can_be_met(&self) -> bool {
        none_from(&self.wanted, self.highest as usize)
    }

    // The test has widths 0 to 256 and names no hook. By parts and no `==`: the wanted bits need not be looked at.
    fn is_every(&self) -> bool {
        self.lowest == 0 && self.highest as usize == MAX_WIDTH && none_from(&self.named, 0)
    }

    // Clauses of its own stand in place of the trait's, so that one is said again.
    #[tactic(auto, using(crate::specs::RowLaws::inside_meets))]
    fn inside(&self) -> Row
        ensures row { result ≡ record { width = self.now.highest; bits = self.now.wanted } }
        ensures meets { is_sound self.now ≡ true → wants_below self.now ≡ true → row_meets self.now result ≡ true }
    {
        Row::kept(self.highest, self.wanted)
    }

    // A row of a width outside, or one with each wanted hook 0, or one with each hook 1.
    #[tactic(auto, using(crate::specs::RowLaws::blank_fails, crate::specs::RowLaws::full_fails, crate::specs::RowLaws::named_some))]
    fn outside(&self) -> Row {
        if self.lowest > 0 {
            return Row::new();
        }
        if self.highest < 256 {
            return Row::kept(256, [0; 32]);
        }
        if none_from(&self.wanted, 0) {
            return Row::kept(256, [255; 32]);
        }
        Row::kept(256, [0; 32])
    }
}
