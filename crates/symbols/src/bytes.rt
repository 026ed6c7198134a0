// The kind of bytes: a test is a lowest and a highest byte, both included.
ghost use Rattle.std.specs.Prelude.{true};
ghost use Rattle.refusals.specs.declared.Refusal.TheVariants.{BytesReversed};
ghost use Rattle.std.proofs.Common.{refl};
ghost use Rattle.symbols.specs.Bytes.{every_byte, inside, is_every, is_sound};
ghost use Rattle.symbols.specs.ByteLaws.{byte_meetable, byte_failable};

use crate::symbol_test::SymbolTest;
use crate::test_list::TestList;
use refusals::Refusal;

// The bytes from the lowest to the highest, both included.
#[derive(Clone, Copy, Debug, PartialEq, Eq)]
pub struct ByteTest {
    pub lowest: u8,
    pub highest: u8,
}

// A list of 1 to 64 tests, the first of which every byte meets.
pub type ByteKind = TestList<ByteTest>;

// Every sound test is met by its lowest byte, and failed by byte 0 or byte 255 unless every byte meets it.
impl SymbolTest for ByteTest {
    type Symbol = u8;

    ghost meets = { inside };

    ghost sound = { is_sound };

    ghost can_meet = { λ b. true };

    ghost all_meet = { is_every };

    ghost EVERY = { every_byte };

    const EVERY: ByteTest = ByteTest {
        lowest: 0,
        highest: 255,
    };

    ghost REFUSAL = { BytesReversed };

    const REFUSAL: Refusal = Refusal::BytesReversed;

    ghost SOME_SYMBOL = { 0 };

    const SOME_SYMBOL: u8 = 0;

    ghost every_sound = { refl };

    ghost every_met = { refl };

    ghost meetable = { byte_meetable };

    ghost failable = { byte_failable };

    fn holds(&self, s: &u8) -> bool {
        self.lowest <= *s && *s <= self.highest
    }

    fn is_sound(&self) -> bool {
        self.lowest <= self.highest
    }

    fn can_be_met(&self) -> bool {
        true
    }

    fn is_every(&self) -> bool {
        *self == Self::EVERY
    }

    fn inside(&self) -> u8 {
        self.lowest
    }

    fn outside(&self) -> u8 {
        if self.lowest > 0 { 0 } else { 255 }
    }
}
