// Lists the nodes of the rule whose text stands on standard input, or says the text's first fault.
#![tactic(auto)]

mod listing;
#[cfg(test)]
mod tests;

use rule_text::MAX_TEXT;
use std::io;
use std::io::Read;

// One byte more than a text may have shows that it is too long, so no more is read.
fn main(rt: HostRuntime) -> io::Result<()> {
    let heap = rt.alloc();
    let mut text = Vec::new(heap);
    rt.stdin().take(MAX_TEXT as u64 + 1).read_to_end(&mut text)?;
    let output = listing::listing(heap, &text)?;
    print!(rt; "{output}")
}
