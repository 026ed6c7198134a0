// Name lists: which names stand for which tests.
ghost use Rattle.std.specs.Prelude.{◌≡◌, ◌<◌, ◌≤◌, [], length, None, Decides, IfSome, MatchOption, MatchResult, slice_index, slice_index_or};
ghost use Rattle.refusals.specs.declared.Refusal.TheVariants.{BadNames};
ghost use Rattle.rule_text.specs.Words.{front};
ghost use Rattle.rule_text.specs.Names.{is_entry, test_named, AllZero, EntryName, FirstBad, GoodEntry, GoodNames, NamesFault};

use crate::words::{MAX_NAME, is_test_name, spells, split_run};
use refusals::{Fault, Refusal};

// A name list has 1 to this many entries.
pub const MAX_NAMES: usize = 128;

// A name, filled up with 0 bytes: the fixed form in which callers give it.
pub type Entry = [u8; 16];

// A name list that keeps its rules.
#[derive(Clone, Copy)]
pub struct Names<'a> {
    entries: &'a [Entry],
    // that it keeps the rules, whatever shows it
    ghost good: { ∥ GoodNames entries.now ∥₁ },
}

// The byte at a place, and 0 past the end.
fn byte_at(bytes: &[u8], i: usize) -> u8
    ensures { result ≡ slice_index bytes.now i }
{
    bytes.get(i).copied().unwrap_or(0)
}

// Whether the entry is this name, filled up with 0 bytes.
fn is_entry(filled: &Entry, name: &[u8]) -> bool
    ensures { result ≡ is_entry filled.now name.now }
{
    filled
        .iter()
        .enumerate()
        .all(|(i, b)| *b == byte_at(name, i))
}

// The number of the first of these entries that is this name.
fn position(entries: &[Entry], name: &[u8]) -> Option<usize>
    ensures { result ≡ test_named entries.now name.now }
{
    entries.iter().position(|entry| is_entry(entry, name))
}

// Whether the bytes are all 0.
fn is_fill(bytes: &[u8]) -> bool
    ensures { Decides result (AllZero bytes.now) }
{
    bytes.iter().all(|b| *b == 0)
}

// The name in an entry; none where the entry is no test's name filled up with 0 bytes.
// An `if` and no `then_some`: each branch is a case of what the contract says.
fn entry_name(filled: &Entry) -> Option<&[u8]>
    ensures { EntryName filled.now result }
{
    let (run, fill) = split_run(filled);
    if is_test_name(run) && is_fill(fill) {
        Some(run)
    } else {
        None
    }
}

// An entry without its fill: the run that it starts with.
pub fn unfilled(filled: &Entry) -> &[u8]
    ensures name { result.now ≡ front filled.now }
    ensures few { length result.now ≤ 16 }
{
    split_run(filled).0
}

// Whether none of these entries is the name.
fn is_new(entries: &[Entry], name: &[u8]) -> bool
    ensures { Decides result (test_named entries.now name.now ≡ None) }
{
    position(entries, name).is_none()
}

// Whether entry i keeps the rules, judged with those before it.
fn is_good(entries: &[Entry], i: usize) -> bool
    requires { i < length entries.now }
    ensures { Decides result (GoodEntry entries.now i) }
{
    match entry_name(&entries[i]) {
        Some(name) if i == 0 => spells(name, b"any"),
        Some(name) => is_new(&entries[0..i], name),
        None => false,
    }
}

// The number of the first entry that breaks the rules.
fn first_bad(entries: &[Entry]) -> Option<usize>
    ensures { FirstBad entries.now result }
{
    // a loop: of `(0..entries.len()).find(..)` the proof did not close
    for i in 0..entries.len() {
        if !is_good(entries, i) {
            return Some(i);
        }
    }
    None
}

impl<'a> Names<'a> {
    // The names of a list that keeps its rules; refuses any other, at the first byte of its first bad entry.
    pub fn new(entries: &'a [Entry]) -> Result<Names<'a>, Fault>
        ensures { MatchResult result (λ names. GoodNames entries.now × (names.entries.now ≡ entries.now)) (λ f. (f.refusal ≡ BadNames) × NamesFault entries.now f.place) }
    {
        if entries.is_empty() || entries.len() > MAX_NAMES {
            return Err(Refusal::BadNames.at(0));
        }
        match first_bad(entries) {
            None => Ok(Names { entries }),
            Some(i) => Err(Refusal::BadNames.at(i * MAX_NAME)),
        }
    }

    // How many names there are.
    pub fn count(self) -> u8
        ensures { result ≡ length self.entry.entries.now }
    {
        self.entries.len() as u8
    }

    // The name of a test, without its fill; none where the list has no such test.
    pub fn name(self, test: u8) -> Option<&'a [u8]>
        ensures name { MatchOption result (length self.entry.entries.now ≤ test) (λ name. (test < length self.entry.entries.now) × (name.now ≡ front (slice_index_or self.entry.entries.now test []))) }
        ensures few { IfSome result (λ name. length name.now ≤ 16) }
    {
        Some(unfilled(self.entries.get(test as usize)?))
    }

    // The test that a name stands for.
    pub(crate) fn find(self, name: &[u8]) -> Option<u8>
        ensures { result ≡ test_named self.entry.entries.now name.now }
    {
        position(self.entries, name).map(|t| t as u8)
    }
}
