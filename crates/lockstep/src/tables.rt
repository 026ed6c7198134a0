// The tables of a rule under a kind, in room that is reserved once.
ghost use Rattle.std.specs.Prelude.{◌≡◌, ℕ, ◌≤◌, false, [], get_or, replicate, IfOk, vec_len, vec_capacity, slice_index_or};
ghost use Rattle.lockstep.specs.Next.{NextTable};
ghost use Rattle.lockstep.specs.Far.{FarTable};

use crate::far::{fill_far, fill_short};
use crate::next::fill_next;
use rules::{MAX_NODES, Rule};
use std::alloc::{AllocError, Global};
use symbols::Kind;

// The tables of a rule under a kind: next and far of each node. The room is reserved when they are made.
// They are apart, since each is filled in an order of its own and read whole by the next one, and far has an entry more.
// How long they are goes by the rule that they were last filled for, so it is no invariant of theirs.
#[derive(Drop)]
pub struct Tables {
    next: Vec<u16>,
    short: Vec<Option<u32>>,
    far: Vec<Option<u32>>,
    ghost next_room: { 512 ≤ vec_capacity next },
    ghost short_room: { 512 ≤ vec_capacity short },
    ghost far_room: { 513 ≤ vec_capacity far },
}

// Makes a table of this many equal entries, in the room that it has.
// The library's resize may ask for memory, which only makers do here.
fn refill<T: Copy>(table: &mut Vec<T>, count: usize, value: T)
    requires { count ≤ vec_capacity table.old }
    ensures items { table.new.items ≡ replicate count value }
    ensures len { vec_len table.new ≡ count }
    ensures capacity { vec_capacity table.new ≡ vec_capacity table.old }
{
    table.clear();
    for _ in 0..count {
        table.push_reserved(value);
    }
}

impl Tables {
    // Empty tables, with all the room that a rule may need.
    pub fn new(heap: Global) -> Result<Tables, AllocError>
        ensures { IfOk result (λ x. (x.next.items ≡ []) × (x.short.items ≡ []) × (x.far.items ≡ [])) }
    {
        Ok(Tables {
            next: Vec::with_capacity(heap, MAX_NODES)?,
            short: Vec::with_capacity(heap, MAX_NODES)?,
            far: Vec::with_capacity(heap, MAX_NODES + 1)?,
        })
    }

    // Fills the tables for a rule under a kind, in the room that they have.
    pub fn fill<K: Kind>(&mut self, rule: &Rule, kind: &K)
        ensures next { NextTable rule.now.nodes.items self.new.next.items }
        ensures far { FarTable (K.Kind.can_meet kind.now) rule.now.nodes.items self.new.next.items self.new.far.items }
    {
        let count = rule.nodes().len();
        refill(&mut self.next, count, 0);
        fill_next(&mut self.next, rule);
        fill_short(&mut self.short, rule, kind);
        refill(&mut self.far, count + 1, None);
        fill_far(&mut self.far, rule, &self.next, &self.short);
    }

    // Next of each node; the node count stands for the end, and is no `None`, since far has an entry there and the listing shows it.
    pub fn next(&self) -> &[u16]
        ensures { result.now ≡ self.now.next.items }
    {
        self.next.as_slice()
    }

    // Far of each node, and of the end.
    pub fn far(&self) -> &[Option<u32>]
        ensures { result.now ≡ self.now.far.items }
    {
        self.far.as_slice()
    }
}
