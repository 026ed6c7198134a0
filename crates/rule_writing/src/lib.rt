// Rule texts: writing a rule as one.
#![tactic(auto)]

ghost use Rattle.rule_writing.specs.Parts.{Judges};
ghost use Rattle.rule_writing.specs.Writing.{Writing};

mod place;
mod writer;

use place::Place;
use refusals::{Fault, Refusal};
use rule_text::{Entry, MAX_DEPTH, MAX_TEXT, Names};
use rules::Rule;
use writer::{Extent, Page, Writer};

// Refuses a text whose brackets are too deep, or that is too long, or that a memory of this many bytes cannot hold.
fn check_extent(extent: Extent, room: usize) -> Result<(), Fault>
    ensures { Judges extent.length extent.depth room result }
{
    let refusal = if extent.depth > MAX_DEPTH {
        Refusal::TooDeep
    } else if extent.length > MAX_TEXT {
        Refusal::TextTooLong
    } else if extent.length > room {
        Refusal::MemoryTooShort
    } else {
        return Ok(());
    };
    Err(refusal.at(0))
}

// Writes a rule as text, with these names, into the memory, and tells how many bytes it took; or says why it cannot be written, and leaves all of the memory as it was.
pub fn write(names: &[Entry], rule: &Rule, memory: &mut [u8]) -> Result<usize, Fault>
    ensures { Writing names.now rule.now.nodes.items memory.old memory.new result }
{
    let names = Names::new(names)?;
    let writer = Writer::new(names, rule)?;
    let root = rule.nodes().len() - 1;
    let extent = writer.measure(Place::Whole, root);
    check_extent(extent, memory.len())?;
    let mut page = Page::new(memory);
    writer.put(Place::Whole, root, &mut page);
    Ok(page.written())
}
