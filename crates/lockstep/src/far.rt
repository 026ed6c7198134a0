// The tables of short and of far: how few symbols a node needs, and how few are needed from a node to the end.
ghost use Rattle.std.specs.Prelude.{◌≡◌, ℕ, ◌+◌, ◌^◌, ◌<◌, ◌≤◌, length, Some, None, vec_len, vec_capacity, slice_index, slice_index_or};
ghost use Rattle.rules.specs.Nodes.{form_at, size_at};
ghost use Rattle.lockstep.specs.Next.{NextTable};
ghost use Rattle.lockstep.specs.Far.{sum, smaller, short_of, IsShort, AtMost};

use crate::asked::Asked;
use rules::{Form, Join, Rule};
use symbols::Kind;

// The sum, none if either is none.
// How low a number is goes by what it is a number of, a node or all from a node on, so that is asked and no type says it.
fn add(a: Option<u32>, b: Option<u32>) -> Option<u32>
    requires a_low { AtMost (2 ^ 20) a }
    requires b_low { AtMost (2 ^ 20) b }
    ensures { result ≡ sum a b }
{
    Some(a? + b?)
}

// The smaller one of those that are there.
fn least(a: Option<u32>, b: Option<u32>) -> Option<u32>
    ensures { result ≡ smaller a b }
{
    match (a, b) {
        (Some(x), Some(y)) => Some(x.min(y)),
        _ => a.or(b),
    }
}

// Short of p, from short of the nodes before it.
// p is one of the rule's nodes: asked here and of `hand_down`, since a type of such numbers would only carry the rule along.
fn short_at<K: Kind>(
    short: &[Option<u32>],
    rule: &Rule,
    kind: &mut Asked<K>,
    p: usize,
) -> Option<u32>
    requires within { p < length rule.now.nodes.items }
    requires before { length short.now ≡ p }
    requires low { (q : ℕ) → q < p → AtMost (size_at rule.now.nodes.items q) (slice_index_or short.now q None) }
    ensures value { result ≡ short_of (K.Kind.can_meet kind.old.kind.now) (form_at rule.now.nodes.items p) (λ q. slice_index_or short.now q None) }
    ensures low { AtMost (size_at rule.now.nodes.items p) result }
    ensures kind { kind.new.kind.now ≡ kind.old.kind.now }
{
    match rule.form(p) {
        Form::Void => None,
        Form::Nil | Form::Repeat(_) => Some(0),
        Form::Leaf(test) => kind.possible(test).then_some(1),
        Form::Join(Join::Chain, left, right) => add(short[left], short[right]),
        Form::Join(Join::Choice, left, right) => least(short[left], short[right]),
    }
}

// Fills the table of short, from the first node on.
// p is a node's number, by which the rule and the table are read, so no list is walked along.
pub(crate) fn fill_short<K: Kind>(short: &mut Vec<Option<u32>>, rule: &Rule, kind: &K)
    requires { 512 ≤ vec_capacity short.old }
    ensures value { IsShort (K.Kind.can_meet kind.now) rule.now.nodes.items (λ q. slice_index_or short.new.items q None) }
    ensures low { (q : ℕ) → q < length rule.now.nodes.items → AtMost 512 (slice_index_or short.new.items q None) }
    ensures len { vec_len short.new ≡ length rule.now.nodes.items }
    ensures capacity { vec_capacity short.new ≡ vec_capacity short.old }
{
    let mut asked = Asked::new(kind);
    short.clear();
    for p in 0..rule.nodes().len() {
        let own = short_at(short, rule, &mut asked, p);
        short.push_reserved(own);
    }
}

// Fills the table of far, from the end mark down.
// p is a node's number: far of what follows it is read from anywhere behind.
pub(crate) fn fill_far(far: &mut [Option<u32>], rule: &Rule, next: &[u16], short: &[Option<u32>])
    requires next { NextTable rule.now.nodes.items next.now }
    requires low { (q : ℕ) → q < length rule.now.nodes.items → AtMost 512 (slice_index_or short.now q None) }
    requires short_len { length short.now ≡ length rule.now.nodes.items }
    requires far_len { length far.old ≡ length rule.now.nodes.items + 1 }
    ensures end { slice_index_or far.new (length rule.now.nodes.items) None ≡ Some 0 }
    ensures step { (p : ℕ) → p < length rule.now.nodes.items → slice_index_or far.new p None ≡ sum (slice_index_or short.now p None) (slice_index_or far.new (slice_index next.now p) None) }
{
    let count = rule.nodes().len();
    far[count] = Some(0);
    for p in (0..count).rev() {
        far[p] = add(short[p], far[next[p] as usize]);
    }
}
