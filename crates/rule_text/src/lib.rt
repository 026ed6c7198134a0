// Rule texts: reading one into a rule.
#![tactic(auto)]

ghost use Rattle.std.specs.Prelude.{◌≡◌, ◌<◌, ◌≤◌, false, [], length, MatchResult};
ghost use Rattle.refusals.specs.declared.Refusal.TheVariants.{TextTooLong};
ghost use Rattle.rule_text.specs.Faults.{fault};
ghost use Rattle.rule_text.specs.Readers.{Ends};
ghost use Rattle.rule_text.specs.Reading.{Reads, Reading};

mod names;
mod reader;
mod rest;
mod words;

pub use names::{Entry, MAX_NAMES, Names, unfilled};
pub use reader::MAX_DEPTH;
use reader::Reader;
use refusals::{Fault, Refusal};
use rest::{Placed, Rest};
use rules::{Draft, Rule};
use words::Word;

// A text has at most this many bytes.
pub const MAX_TEXT: usize = 4096;

// Refuses a text that is too long.
fn check_length(text: &[u8]) -> Result<(), Fault>
    ensures { MatchResult result (λ _. length text.now ≤ 4096) (λ f. (4096 < length text.now) × (f ≡ fault TextTooLong 4096)) }
{
    if text.len() > MAX_TEXT {
        return Err(Refusal::TextTooLong.at(MAX_TEXT));
    }
    Ok(())
}

// Refuses what stands after a whole rule, unless it is the end, and then a draft of too many nodes.
fn check_end(last: Placed<'_>, draft: &Draft) -> Result<(), Fault>
    ensures { Ends last.entry draft.now.over result }
{
    match last.word {
        Word::End if draft.is_complete() => Ok(()),
        Word::End => Err(Refusal::TooManyNodes.at(last.rest.whole)),
        _ => Err(Refusal::Misplaced.at(last.place)),
    }
}

// Reads a text by way of the rule's draft, and leaves there what it will.
fn read_drafting(names: &[Entry], text: &[u8], rule: &mut Rule) -> Result<(), Fault>
    ensures { Reads names.now text.now rule.old.nodes.items rule.new.nodes.items result }
{
    let names = Names::new(names)?;
    check_length(text)?;
    rule.draft.clear();
    let rest = Reader::new(names).choice(Rest::new(text), &mut rule.draft)?;
    let last = rest.next_word()?;
    check_end(last, &rule.draft)?;
    // The draft is a whole rule, and none of it was left out, so adopting it refuses nothing.
    rule.adopt()
}

// Reads a text, with these names, into the rule, or says its first fault and leaves the rule's list as it was. The draft is empty afterwards.
pub fn read(names: &[Entry], text: &[u8], rule: &mut Rule) -> Result<(), Fault>
    ensures reading { Reading names.now text.now rule.old.nodes.items rule.new.nodes.items result }
    ensures emptied { (rule.new.draft.nodes.items ≡ []) × (rule.new.draft.over ≡ false) }
{
    let answer = read_drafting(names, text, rule);
    rule.draft.clear();
    answer
}
