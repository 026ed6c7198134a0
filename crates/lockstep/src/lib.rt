// What the lockstep reading of a rule goes by: the rule's tables.
#![tactic(auto)]

ghost use Rattle.lockstep.specs.Next.{OneNext};
ghost use Rattle.lockstep.specs.Far.{OneFar};
ghost use Rattle.lockstep.specs.Word.{OneWord, ShortOfWord};

mod asked;
mod far;
mod next;
mod set;
mod tables;

pub use set::{NUMBERS, NodeSet};
pub use tables::Tables;

// That a rule has one next and one far is proved here.
pub fn tables_pinned()
    ensures next { OneNext }
    ensures far { OneFar }
{}

// That a node has one word, whose length is the node's short, is proved here.
pub fn words_pinned()
    ensures one { OneWord }
    ensures short { ShortOfWord }
{}
