// A rule: a well-formed list of nodes, with room to draft the next one.
ghost use Rattle.std.specs.Prelude.{◌≡◌, ◌<◌, ◌≤◌, true, false, not, [], ◌∷◌, ◌++◌, length, Some, None, is_ok, IfOk, IfErr, IfSome, if◌then◌else◌, vec_len, vec_capacity, Decides, nat_le, nat_lt};
ghost use Rattle.refusals.specs.declared.Refusal.TheVariants.{BadNodes};
ghost use Rattle.rules.specs.Nodes.{FirstTest, Fitting, test_from, test_of, TestsFit, Rooted, WellFormed, form_at, grown, node, size_for, joined_size, size_at};
ghost use Rattle.rules.specs.Records.{Adds, NodeOf};
ghost use Rattle.rules.specs.declared.node.Shape.TheVariants.{Void};

use crate::node::{Form, Node, Shape};
use crate::record::Record;
use refusals::{Fault, Refusal};
use std::alloc::{AllocError, Global};
use std::mem;

// A rule has 1 to this many nodes.
pub const MAX_NODES: usize = 512;

// A list of nodes that is being built, each over the last ones; past the limit it only notes that there were more.
// A flag and no refusal at once: a text is read to its end before too many nodes are judged.
#[derive(Drop)]
pub struct Draft {
    nodes: Vec<Node>,
    over: bool,
    ghost fitting: { Fitting nodes.items },
    ghost tests: { TestsFit nodes.items },
    ghost few: { vec_len nodes ≤ 512 },
    ghost room: { 512 ≤ vec_capacity nodes },
}

// A rule's list of nodes is well formed, and its room is its own.
// A list by number and no tree of boxes: a rule of the project, fixed memory, and a node's number is shown.
#[derive(Drop)]
pub struct Rule {
    nodes: Vec<Node>,
    pub draft: Draft,
    ghost formed: { WellFormed nodes.items },
    ghost room: { 512 ≤ vec_capacity nodes },
}

// Whether a node of this shape has a test at or above a bound.
fn has_test_from(shape: Shape, bound: usize) -> bool
    ensures { result ≡ test_from bound shape }
{
    shape.test().is_some_and(|test| test as usize >= bound)
}

impl Draft {
    // The size of node i, if there is one.
    fn size_of(&self, i: usize) -> Option<u16>
        ensures size { result ≡ (if nat_lt i (length self.now.nodes.items) then Some (size_at self.now.nodes.items i) else None) }
        ensures few { IfSome result (λ s. s ≤ 512) }
    {
        Some(self.nodes.get(i)?.size)
    }

    // The size that a node of this shape has at the end; none where its children are not there.
    fn size_for(&self, shape: Shape) -> Option<u16>
        ensures size { result ≡ size_for (size_at self.now.nodes.items) shape (length self.now.nodes.items) }
        ensures test { test_of shape ≤ 255 }
    {
        match shape {
            Shape::Void | Shape::Nil => Some(1),
            Shape::Leaf(_test) => Some(1),
            Shape::Join(_) => self.joined_size(),
            Shape::Repeat => Some(1 + self.size_of(self.nodes.len().checked_sub(1)?)?),
        }
    }

    // The size of a chain or a choice over the last two parts: the left one ends where the right one begins.
    fn joined_size(&self) -> Option<u16>
        ensures { result ≡ joined_size (size_at self.now.nodes.items) (length self.now.nodes.items) }
    {
        let right_end = self.nodes.len().checked_sub(1)?;
        let right = self.size_of(right_end)?;
        let left = self.size_of(right_end.checked_sub(right as usize)?)?;
        Some(1 + (left + right))
    }

    // The node that a record tells at the end, if the record is good there.
    fn node_of(&self, given: Record) -> Option<Node>
        ensures { NodeOf self.now.nodes.items given result }
    {
        let shape = given.shape()?;
        let size = self.size_for(shape)?;
        (given.size == u32::from(size)).then_some(Node { shape, size })
    }

    // Whether the last node is the root of all.
    fn is_rooted(&self) -> bool
        ensures { Decides result (Rooted self.now.nodes.items) }
    {
        self.nodes
            .last()
            .is_some_and(|root| root.size as usize == self.nodes.len())
    }

    // No node, with room for all.
    fn new(heap: Global) -> Result<Draft, AllocError>
        ensures { IfOk result (λ x. (x.nodes.items ≡ []) × (x.over ≡ false)) }
    {
        Ok(Draft {
            nodes: Vec::with_capacity(heap, MAX_NODES)?,
            over: false,
        })
    }

    // Starts anew, with no node.
    pub fn clear(&mut self)
        ensures items { self.new.nodes.items ≡ [] }
        ensures over { self.new.over ≡ false }
    {
        self.nodes.clear();
        self.over = false;
    }

    // Puts a node at the end, of the size that its shape asks there.
    fn append(&mut self, node: Node)
        requires room { vec_len self.old.nodes < 512 }
        requires fits { Some node.size ≡ size_for (size_at self.old.nodes.items) node.shape (length self.old.nodes.items) }
        requires test { test_of node.shape ≤ 255 }
        ensures items { self.new.nodes.items ≡ self.old.nodes.items ++ node ∷ [] }
        ensures over { self.new.over ≡ self.old.over }
    {
        self.nodes.push_reserved(node);
    }

    // Adds a node of this shape over the last ones, if there is room and its children are there.
    pub fn push(&mut self, shape: Shape)
        ensures items { self.new.nodes.items ≡ (if nat_le 512 (vec_len self.old.nodes) then self.old.nodes.items else grown self.old.nodes.items shape) }
        ensures over { self.new.over ≡ (if nat_le 512 (vec_len self.old.nodes) then true else self.old.over) }
    {
        if self.nodes.len() >= MAX_NODES {
            self.over = true;
        } else if let Some(size) = self.size_for(shape) {
            self.append(Node { shape, size });
        }
    }

    // Whether none of the nodes was left out for want of room.
    pub fn is_complete(&self) -> bool
        ensures { result ≡ not self.now.over }
    {
        !self.over
    }

    // Adds the node that a record tells, or refuses the record where it is not good after the nodes so far.
    pub(crate) fn add(&mut self, given: Record) -> Result<(), Fault>
        requires { vec_len self.old.nodes < 512 }
        ensures nodes { Adds self.old.nodes.items given result self.new.nodes.items }
        ensures over { self.new.over ≡ self.old.over }
    {
        let Some(node) = self.node_of(given) else {
            return Err(Refusal::BadNodes.at(self.nodes.len()));
        };
        self.append(node);
        Ok(())
    }
}

impl Rule {
    // A fresh rule: one void node, and an empty draft.
    pub fn new(heap: Global) -> Result<Rule, AllocError>
        ensures { IfOk result (λ x. (x.nodes.items ≡ node Void 1 ∷ []) × (x.draft.nodes.items ≡ []) × (x.draft.over ≡ false)) }
    {
        let mut nodes = Vec::with_capacity(heap, MAX_NODES)?;
        nodes.push_reserved(Node {
            shape: Shape::Void,
            size: 1,
        });
        Ok(Rule {
            nodes,
            draft: Draft::new(heap)?,
        })
    }

    // The rule's list.
    pub fn nodes(&self) -> &[Node]
        ensures { result.now ≡ self.now.nodes.items }
    {
        self.nodes.as_slice()
    }

    // What node i is, with the numbers of its children; past the list it is void, so that each number has a form.
    pub fn form(&self, i: usize) -> Form
        ensures { result ≡ form_at self.now.nodes.items i }
    {
        let nodes = self.nodes();
        if i >= nodes.len() {
            return Form::Void;
        }
        match nodes[i].shape {
            Shape::Void => Form::Void,
            Shape::Nil => Form::Nil,
            Shape::Leaf(test) => Form::Leaf(test),
            Shape::Join(join) => Form::Join(join, i - 1 - nodes[i - 1].size as usize, i - 1),
            Shape::Repeat => Form::Repeat(i - 1),
        }
    }

    // The first node whose test is at or above a bound; none where every test is below it.
    pub fn first_test(&self, bound: usize) -> Option<usize>
        ensures { FirstTest bound self.now.nodes.items result }
    {
        self.nodes()
            .iter()
            .position(|node| has_test_from(node.shape, bound))
    }

    // Puts the draft's list in the place of the rule's, or refuses it where it is not one whole part or some of it was left out.
    pub fn adopt(&mut self) -> Result<(), Fault>
        ensures whether { Decides (is_ok result) ((self.old.draft.over ≡ false) × Rooted self.old.draft.nodes.items) }
        ensures fault { IfErr result (λ f. f ≡ record { refusal = BadNodes; place = length self.old.draft.nodes.items }) }
        ensures nodes { self.new.nodes.items ≡ (if is_ok result then self.old.draft.nodes.items else self.old.nodes.items) }
        ensures draft { self.new.draft.nodes.items ≡ (if is_ok result then self.old.nodes.items else self.old.draft.nodes.items) }
        ensures over { self.new.draft.over ≡ self.old.draft.over }
    {
        if self.draft.over || !self.draft.is_rooted() {
            return Err(Refusal::BadNodes.at(self.draft.nodes.len()));
        }
        mem::swap(&mut self.nodes, &mut self.draft.nodes);
        Ok(())
    }
}
