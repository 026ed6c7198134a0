// The reader: the grammar's four levels, each a method that adds what it reads to a draft.
// They stay four that call each other through brackets: a rule of the project.
ghost use Rattle.std.specs.Prelude.{◌≡◌, ◌+◌, ◌<◌, ◌≤◌, length, MatchResult};
ghost use Rattle.refusals.specs.declared.Refusal.TheVariants.{TooDeep};
ghost use Rattle.rule_text.specs.Faults.{fault};
ghost use Rattle.rule_text.specs.Grammar.{choice as choice_level, chain as chain_level, item as item_level, atom as atom_level};
ghost use Rattle.rule_text.specs.Readers.{TestOf, NameIn};

use crate::names::Names;
use crate::rest::{Placed, Rest};
use crate::words::Word;
use refusals::{Fault, Refusal};
use rules::{Draft, Join, Shape};

// Brackets stand at most this deep.
pub const MAX_DEPTH: usize = 16;

// Reads what stands in so many brackets, with these names.
#[derive(Clone, Copy)]
pub(crate) struct Reader<'a> {
    names: Names<'a>,
    depth: usize,
    ghost shallow: { depth ≤ 16 },
}

// The name that a word is, where only a name may stand.
fn name_in<'a>(next: Placed<'a>) -> Result<&'a [u8], Fault>
    ensures { NameIn next.entry result }
{
    match next.word {
        Word::Name(name) => Ok(name),
        _ => Err(Refusal::Misplaced.at(next.place)),
    }
}

impl<'a> Reader<'a> {
    ghost use Rattle.rule_text.specs.Calls.{ReadsPart, ReadsFurther, ReadsOpposite};

    // Reads what stands in no brackets.
    pub(crate) fn new(names: Names<'a>) -> Reader<'a>
        ensures names { result.names ≡ names.entry }
        ensures depth { result.depth ≡ 0 }
    {
        Reader { names, depth: 0 }
    }

    // Reads what stands in the brackets that open at this place; refuses them where too many stand open already.
    fn deeper(self, place: usize) -> Result<Reader<'a>, Fault>
        ensures { MatchResult result (λ inner. (self.entry.depth < 16) × (inner.names ≡ self.entry.names) × (inner.depth ≡ self.entry.depth + 1)) (λ f. (16 ≤ self.entry.depth) × (f ≡ fault TooDeep place)) }
    {
        if self.depth >= MAX_DEPTH {
            return Err(Refusal::TooDeep.at(place));
        }
        Ok(Reader {
            names: self.names,
            depth: self.depth + 1,
        })
    }

    // The test that a name stands for.
    fn test_of(self, name: &[u8], place: usize) -> Result<u8, Fault>
        ensures { TestOf self.entry.names.entries.now name.now place result }
    {
        self.names.find(name).ok_or(Refusal::UnknownName.at(place))
    }

    // The name after `!`: a leaf with the opposite of its test.
    fn opposite(self, text: Rest<'a>, draft: &mut Draft) -> Result<Rest<'a>, Fault>
        ensures { ReadsOpposite self.entry text.entry draft.old draft.new result }
    {
        let next = text.next_word()?;
        let name = name_in(next)?;
        let test = self.test_of(name, next.place)?;
        draft.push(Shape::Leaf(self.names.count() + test));
        Ok(next.rest)
    }

    // A choice: one chain, then any number of `|` and a chain.
    #[cycle(readers)]
    pub(crate) fn choice(self, text: Rest<'a>, draft: &mut Draft) -> Result<Rest<'a>, Fault>
        ensures { ReadsPart self.entry choice_level text.entry draft.old draft.new result }
    {
        let mut rest = self.chain(text, draft)?;
        loop {
            let next = rest.next_word()?;
            let Word::Bar = next.word else {
                return Ok(rest);
            };
            rest = self.further(Join::Choice, next.rest, draft)?;
        }
    }

    // A chain: one or more items.
    #[cycle(readers)]
    fn chain(self, text: Rest<'a>, draft: &mut Draft) -> Result<Rest<'a>, Fault>
        ensures { ReadsPart self.entry chain_level text.entry draft.old draft.new result }
    {
        let mut rest = self.item(text, draft)?;
        loop {
            let next = rest.next_word()?;
            let (Word::Name(_) | Word::Nil | Word::Void | Word::Bang | Word::Open) = next.word
            else {
                return Ok(rest);
            };
            rest = self.further(Join::Chain, rest, draft)?;
        }
    }

    // What a chain or a choice goes on with, an item or a chain, and the join of what was read before and of it.
    // By the join and no closure: the readers are one cycle.
    #[cycle(readers)]
    fn further(self, join: Join, text: Rest<'a>, draft: &mut Draft) -> Result<Rest<'a>, Fault>
        ensures { ReadsFurther self.entry join text.entry draft.old draft.new result }
    {
        let rest = match join {
            Join::Chain => self.item(text, draft)?,
            Join::Choice => self.chain(text, draft)?,
        };
        draft.push(Shape::Join(join));
        Ok(rest)
    }

    // An item: an atom, then any number of `*`.
    #[cycle(readers)]
    fn item(self, text: Rest<'a>, draft: &mut Draft) -> Result<Rest<'a>, Fault>
        ensures { ReadsPart self.entry item_level text.entry draft.old draft.new result }
    {
        let mut rest = self.atom(text, draft)?;
        loop {
            let next = rest.next_word()?;
            let Word::Star = next.word else {
                return Ok(rest);
            };
            rest = next.rest;
            draft.push(Shape::Repeat);
        }
    }

    // An atom: a name, `!` and a name, `nil`, `void`, or a choice in brackets.
    #[cycle(readers)]
    fn atom(self, text: Rest<'a>, draft: &mut Draft) -> Result<Rest<'a>, Fault>
        ensures { ReadsPart self.entry atom_level text.entry draft.old draft.new result }
    {
        let next = text.next_word()?;
        match next.word {
            Word::Name(name) => {
                let test = self.test_of(name, next.place)?;
                draft.push(Shape::Leaf(test));
                Ok(next.rest)
            }
            Word::Nil => {
                draft.push(Shape::Nil);
                Ok(next.rest)
            }
            Word::Void => {
                draft.push(Shape::Void);
                Ok(next.rest)
            }
            Word::Bang => self.opposite(next.rest, draft),
            Word::Open => {
                let inner = self.deeper(next.place)?;
                let rest = inner.choice(next.rest, draft)?;
                let last = rest.next_word()?;
                match last.word {
                    Word::Close => Ok(last.rest),
                    _ => Err(Refusal::Misplaced.at(last.place)),
                }
            }
            _ => Err(Refusal::Misplaced.at(next.place)),
        }
    }
}
