// The writer: how much room the text of each node takes, and its bytes.
ghost use Rattle.std.specs.Prelude.{◌≡◌, ◌+◌, ◌*◌, ◌<◌, ◌≤◌, max, cond, [], ◌++◌, length, codes, Some, MatchResult};
ghost use Rattle.refusals.specs.declared.Refusal.TheVariants.{UnknownName};
ghost use Rattle.rules.specs.Nodes.{FirstTest};
ghost use Rattle.rule_writing.specs.Parts.{AllNamed, leaf_text, text_at, height_in, length_in, Measured, Puts};

use crate::place::{Place, between, needs_brackets};
use refusals::{Fault, Refusal};
use rule_text::Names;
use rules::{Form, Rule};

// How many bytes a text has, and how deep its brackets stand.
#[derive(Clone, Copy)]
pub(crate) struct Extent {
    pub length: usize,
    pub depth: usize,
}

// Writes the nodes of a rule, each test of which has a name.
// That p is one of them is asked of two methods: a type of such numbers would only borrow the rule once more.
#[derive(Clone, Copy)]
pub(crate) struct Writer<'a> {
    names: Names<'a>,
    rule: &'a Rule,
    ghost named: { AllNamed names.entries.now rule.now.nodes.items },
}

// The extent of two texts, with so many bytes between them, in brackets or not.
fn joined(left: Extent, gap: usize, right: Extent, brackets: bool) -> Extent
    requires left_low { left.length ≤ 65536 }
    requires right_low { right.length ≤ 65536 }
    requires gap_low { gap ≤ 3 }
    requires left_flat { left.depth ≤ 65536 }
    requires right_flat { right.depth ≤ 65536 }
    ensures length { result.length ≡ length_in brackets (left.length + (gap + right.length)) }
    ensures depth { result.depth ≡ height_in brackets (max left.depth right.depth) }
{
    let length = left.length + gap + right.length;
    let depth = left.depth.max(right.depth);
    if brackets {
        Extent {
            length: length + 2,
            depth: depth + 1,
        }
    } else {
        Extent { length, depth }
    }
}

// What stands around a text that needs brackets, or needs none.
fn brackets(needed: bool) -> (&'static [u8], &'static [u8])
    ensures open { result.0.now ≡ cond needed (codes "(") [] }
    ensures close { result.1.now ≡ cond needed (codes ")") [] }
{
    if needed { (b"(", b")") } else { (b"", b"") }
}

// A memory, and the place in it that is written next.
#[derive(Drop)]
pub(crate) struct Page<'m> {
    memory: &'m mut [u8],
    at: usize,
}

impl<'m> Page<'m> {
    // All of a memory, from its front on.
    pub(crate) fn new(memory: &'m mut [u8]) -> Page<'m>
        ensures same { result.memory.ghost_name ≡ memory.entry.ghost_name }
        ensures memory { result.memory.now ≡ memory.old }
        ensures front { result.at ≡ 0 }
    {
        Page { memory, at: 0 }
    }

    // How many bytes are written.
    pub(crate) fn written(&self) -> usize
        ensures { result ≡ self.now.at }
    {
        self.at
    }

    // Writes these bytes behind those before.
    fn push(&mut self, bytes: &[u8])
        requires { self.old.at + length bytes.now ≤ length self.old.memory.now }
        ensures same { self.new.memory.ghost_name ≡ self.old.memory.ghost_name }
        ensures room { length self.new.memory.now ≡ length self.old.memory.now }
        ensures puts { Puts bytes.now self.old.memory.now self.old.at self.new.memory.now self.new.at }
    {
        let end = self.at + bytes.len();
        self.memory[self.at..end].copy_from_slice(bytes);
        self.at = end;
    }
}

impl<'a> Writer<'a> {
    // Writes a rule with these names; refuses it at its first node whose test has none: n names have 2n tests, their own and the opposite ones.
    pub(crate) fn new(names: Names<'a>, rule: &'a Rule) -> Result<Writer<'a>, Fault>
        ensures { MatchResult result (λ writer. (writer.names ≡ names.entry) × (writer.rule.now ≡ rule.now)) (λ f. (f.refusal ≡ UnknownName) × FirstTest (2 * length names.entry.entries.now) rule.now.nodes.items (Some f.place)) }
    {
        match rule.first_test(2 * names.count() as usize) {
            None => Ok(Writer { names, rule }),
            Some(place) => Err(Refusal::UnknownName.at(place)),
        }
    }

    // What is written of a leaf: nothing or `!`, and then a name.
    fn leaf_parts(self, test: u8) -> (&'static [u8], &'a [u8])
        ensures text { result.0.now ++ result.1.now ≡ leaf_text self.entry.names.entries.now test }
        ensures mark { length result.0.now ≤ 1 }
        ensures name { length result.1.now ≤ 16 }
    {
        let count = self.names.count();
        match self.names.name(test) {
            Some(name) => (b"", name),
            None => (b"!", self.names.name(test - count).unwrap_or(b"")),
        }
    }

    // The extent of the text of node p.
    pub(crate) fn measure(self, place: Place, p: usize) -> Extent
        requires { p < length self.rule.now.nodes.items }
        ensures { Measured self.entry.names.entries.now self.entry.rule.now.nodes.items place p result.length result.depth }
    {
        match self.rule.form(p) {
            Form::Void => Extent {
                length: 4,
                depth: 0,
            },
            Form::Nil => Extent {
                length: 3,
                depth: 0,
            },
            Form::Leaf(test) => {
                let (mark, name) = self.leaf_parts(test);
                Extent {
                    length: mark.len() + name.len(),
                    depth: 0,
                }
            }
            Form::Repeat(child) => {
                let inner = self.measure(Place::Repeated, child);
                Extent {
                    length: inner.length + 1,
                    depth: inner.depth,
                }
            }
            Form::Join(join, left, right) => joined(
                self.measure(Place::Left(join), left),
                between(join).len(),
                self.measure(Place::Right(join), right),
                needs_brackets(place, join),
            ),
        }
    }

    // Writes the text of node p. It goes along the nodes as measuring did: nothing is written before all is known to fit.
    pub(crate) fn put(self, place: Place, p: usize, page: &mut Page<'_>)
        requires within { p < length self.rule.now.nodes.items }
        requires room { page.old.at + length (text_at self.names.entries.now self.rule.now.nodes.items place p) ≤ length page.old.memory.now }
        ensures same { page.new.memory.ghost_name ≡ page.old.memory.ghost_name }
        ensures room { length page.new.memory.now ≡ length page.old.memory.now }
        ensures puts { Puts (text_at self.entry.names.entries.now self.entry.rule.now.nodes.items place p) page.old.memory.now page.old.at page.new.memory.now page.new.at }
    {
        match self.rule.form(p) {
            Form::Void => page.push(b"void"),
            Form::Nil => page.push(b"nil"),
            Form::Leaf(test) => {
                let (mark, name) = self.leaf_parts(test);
                page.push(mark);
                page.push(name);
            }
            Form::Repeat(child) => {
                self.put(Place::Repeated, child, page);
                page.push(b"*");
            }
            Form::Join(join, left, right) => {
                let (open, close) = brackets(needs_brackets(place, join));
                page.push(open);
                self.put(Place::Left(join), left, page);
                page.push(between(join));
                self.put(Place::Right(join), right, page);
                page.push(close);
            }
        }
    }
}
