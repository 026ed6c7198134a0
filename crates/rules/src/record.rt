// Records: nodes as plain numbers, for giving a list out and for taking one from outside.
ghost use Rattle.std.specs.Prelude.{◌≡◌, false, []};
ghost use Rattle.rules.specs.Records.{ComesBack, OneAnswer, Takes, ToldBy, record_of};

use crate::node::{Join, Node, Shape};
use crate::rule::{MAX_NODES, Rule};
use refusals::{Fault, Refusal};

// A node as plain numbers, any at all: the code of its shape, its test and its size.
// The code is a number and no enum, since a list from outside may have any.
#[derive(Clone, Copy, Debug, PartialEq, Eq)]
pub struct Record {
    pub code: u32,
    pub test: u32,
    pub size: u32,
}

impl Record {
    // The shape that the code and the test tell, if any.
    // No TryFrom: that would be public, with an error that nobody reads, and this has one caller.
    pub(crate) fn shape(self) -> Option<Shape>
        ensures { ToldBy self result }
    {
        match (self.code, self.test) {
            (0, 0) => Some(Shape::Void),
            (1, 0) => Some(Shape::Nil),
            (2, 0..=255) => Some(Shape::Leaf(self.test as u8)),
            (3, 0) => Some(Shape::Join(Join::Chain)),
            (4, 0) => Some(Shape::Join(Join::Choice)),
            (5, 0) => Some(Shape::Repeat),
            _ => None,
        }
    }
}

// A node as plain numbers.
impl From<Node> for Record {
    ghost from_gives = { λ n r. r ≡ record_of n };

    fn from(node: Node) -> Record {
        let (code, test) = match node.shape {
            Shape::Void => (0, 0),
            Shape::Nil => (1, 0),
            Shape::Leaf(test) => (2, u32::from(test)),
            Shape::Join(Join::Chain) => (3, 0),
            Shape::Join(Join::Choice) => (4, 0),
            Shape::Repeat => (5, 0),
        };
        Record {
            code,
            test,
            size: u32::from(node.size),
        }
    }
}

impl Rule {
    // Takes a node list by way of the draft, and leaves there what it will.
    fn take_drafting(&mut self, records: &[Record]) -> Result<(), Fault>
        ensures { Takes records.now self.old.nodes.items result self.new.nodes.items }
    {
        if records.len() > MAX_NODES {
            return Err(Refusal::BadNodes.at(MAX_NODES));
        }
        self.draft.clear();
        for given in records {
            self.draft.add(*given)?;
        }
        self.adopt()
    }

    // Takes a node list from outside in the place of the rule's, or says where it is bad and leaves the rule's list as it was. The draft is empty afterwards.
    pub fn take(&mut self, records: &[Record]) -> Result<(), Fault>
        ensures takes { Takes records.now self.old.nodes.items result self.new.nodes.items }
        ensures emptied { (self.new.draft.nodes.items ≡ []) × (self.new.draft.over ≡ false) }
    {
        let answer = self.take_drafting(records);
        self.draft.clear();
        answer
    }
}

// That taking has one answer, and that a rule's list that is given out as records is taken again, is proved here.
pub fn records_return()
    ensures one { OneAnswer }
    ensures back { ComesBack }
{}
