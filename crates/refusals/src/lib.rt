// Why a call refuses: one fault type for the whole library.
#![tactic(auto)]

ghost use Rattle.std.specs.Prelude.{◌≡◌, Some};
ghost use Rattle.refusals.specs.Table.{number_of, layer_of, name_of, fault_text};

use std::error::Error;
use std::fmt;

// The part of the library that a refusal comes from.
#[derive(Clone, Copy, Debug, PartialEq, Eq)]
pub enum Layer {
    Words,
    Grammar,
    Names,
    Nodes,
    Watch,
    Kind,
}

// Every refusal there is. docs/REFUSALS.md says exactly when each is given.
#[derive(Clone, Copy, Debug, PartialEq, Eq)]
pub enum Refusal {
    // a byte that belongs to no word and is no blank
    StrayByte = 11,
    // a run of letters, digits and hyphens that is no name
    NotAName = 12,
    // a word, or the end of the text, that is not allowed here
    Misplaced = 13,
    // a bracket deeper than 16
    TooDeep = 14,
    // a name that the name list has not; in writing, a test that has no name
    UnknownName = 15,
    // over 512 nodes
    TooManyNodes = 16,
    // a text over 4,096 bytes
    TextTooLong = 17,
    // a name list that breaks its rules
    BadNames = 18,
    // a node list that breaks its rules
    BadNodes = 19,
    // a leaf whose test the kind does not have
    UnknownTest = 21,
    // a rule that no piece can fulfil
    NothingWhole = 22,
    // a watch that is shut
    Shut = 23,
    // 1,000,000 symbols are taken
    LimitReached = 31,
    // no whole piece starts with the symbols taken and this one
    DeadEnd = 32,
    // a finish longer than the list that is to hold it
    ListTooShort = 33,
    // a written text longer than the memory that is to hold it
    MemoryTooShort = 34,
    // a lowest byte above the highest
    BytesReversed = 41,
    // a row wider than 256
    TooWide = 42,
    // a number of bytes that does not go with the width
    WrongLength = 43,
    // a bit at or above the width
    BitPastWidth = 44,
    // a row test that breaks its rules
    BadRowTest = 45,
    // a kind that has 64 tests already
    KindFull = 46,
    // turning a kind of over 128 tests
    TooManyTests = 47,
}

// A refusal and its place: a byte of a text, a node of a list or a count, as docs/REFUSALS.md says, and else 0.
// 0 and no `None`: a rule of the project, each refusal tells a place.
#[derive(Clone, Copy, Debug, PartialEq, Eq)]
pub struct Fault {
    pub refusal: Refusal,
    pub place: usize,
}

impl Refusal {
    // This refusal at a place.
    pub fn at(self, place: usize) -> Fault
        ensures { result ≡ record { refusal = self; place = place } }
    {
        Fault {
            refusal: self,
            place,
        }
    }

    // The number that tells it. A method and no `u8::from`: at a call, `number` says which number it is.
    pub fn number(self) -> u8
        ensures { result ≡ number_of self }
    {
        self as u8
    }

    // The layer that it comes from.
    pub fn layer(self) -> Layer
        ensures { result ≡ layer_of self }
    {
        match self {
            Refusal::StrayByte | Refusal::NotAName | Refusal::TextTooLong => Layer::Words,
            Refusal::Misplaced | Refusal::TooDeep => Layer::Grammar,
            Refusal::UnknownName | Refusal::BadNames | Refusal::MemoryTooShort => Layer::Names,
            Refusal::TooManyNodes | Refusal::BadNodes => Layer::Nodes,
            Refusal::UnknownTest
            | Refusal::NothingWhole
            | Refusal::Shut
            | Refusal::LimitReached
            | Refusal::DeadEnd
            | Refusal::ListTooShort => Layer::Watch,
            Refusal::BytesReversed
            | Refusal::TooWide
            | Refusal::WrongLength
            | Refusal::BitPastWidth
            | Refusal::BadRowTest
            | Refusal::KindFull
            | Refusal::TooManyTests => Layer::Kind,
        }
    }
}

impl Layer {
    // The layer's name, as it is printed. Beside `Display`, since it needs no writer and cannot fail.
    pub fn name(self) -> &'static str
        ensures { result.now ≡ name_of self }
    {
        match self {
            Layer::Words => "words",
            Layer::Grammar => "grammar",
            Layer::Names => "names",
            Layer::Nodes => "nodes",
            Layer::Watch => "watch",
            Layer::Kind => "kind",
        }
    }
}

// A layer is printed by its name.
impl fmt::Display for Layer {
    ghost output = { λ x. Some (name_of x) };

    fn fmt<W: fmt::Write>(&self, f: &mut fmt::Formatter<W>) -> fmt::Result {
        f.write_str(self.name())
    }
}

// A fault is printed as its number, its layer and its place.
impl fmt::Display for Fault {
    ghost output = { λ x. Some (fault_text x) };

    fn fmt<W: fmt::Write>(&self, f: &mut fmt::Formatter<W>) -> fmt::Result {
        let number = self.refusal.number();
        let layer = self.refusal.layer();
        write!(f, "{number} {layer} {}", self.place)
    }
}

impl Error for Fault {}
