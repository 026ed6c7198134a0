// Nodes: the parts of a rule.
ghost use Rattle.std.specs.Prelude.{◌≡◌, Some};
ghost use Rattle.rules.specs.Nodes.{kind_word, leaf_test};

use std::fmt;

// The two ways of joining a left and a right child.
#[derive(Clone, Copy, Debug, PartialEq, Eq)]
pub enum Join {
    // a sequence of the left child, then one of the right child
    Chain,
    // what either child gives
    Choice,
}

// What a node is.
#[derive(Clone, Copy, Debug, PartialEq, Eq)]
pub enum Shape {
    // gives no sequence
    Void,
    // gives the empty sequence
    Nil,
    // gives each single symbol that meets this test
    Leaf(u8),
    // a chain or a choice
    Join(Join),
    // gives any number of sequences of its child, one after another
    Repeat,
}

// A node with its size: how many nodes its part of the list has, itself among them.
#[derive(Clone, Copy, Debug, PartialEq, Eq)]
pub struct Node {
    pub shape: Shape,
    pub size: u16,
}

// A node with the numbers of its children: of a join the left and the right one, of a repeat the only one.
#[derive(Clone, Copy, Debug, PartialEq, Eq)]
pub enum Form {
    Void,
    Nil,
    Leaf(u8),
    Join(Join, usize, usize),
    Repeat(usize),
}

impl Shape {
    // The test of a leaf; none of every other shape.
    pub fn test(self) -> Option<u8>
        ensures { result ≡ leaf_test self }
    {
        match self {
            Shape::Leaf(test) => Some(test),
            Shape::Void | Shape::Nil | Shape::Join(_) | Shape::Repeat => None,
        }
    }

    // The word for it, as it is printed.
    fn word(self) -> &'static str
        ensures { result.now ≡ kind_word self }
    {
        match self {
            Shape::Void => "void",
            Shape::Nil => "nil",
            Shape::Leaf(_) => "leaf",
            Shape::Join(Join::Chain) => "chain",
            Shape::Join(Join::Choice) => "choice",
            Shape::Repeat => "repeat",
        }
    }
}

// A shape is printed by its word.
impl fmt::Display for Shape {
    ghost output = { λ x. Some (kind_word x) };

    fn fmt<W: fmt::Write>(&self, f: &mut fmt::Formatter<W>) -> fmt::Result {
        f.write_str(self.word())
    }
}
