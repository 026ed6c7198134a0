// The table of next: what follows each node.
ghost use Rattle.std.specs.Prelude.{◌≡◌, ◌<◌, length, slice_index};
ghost use Rattle.rules.specs.Nodes.{form_at};
ghost use Rattle.lockstep.specs.Next.{IsNext, handed_down};

use rules::{Form, Join, Rule};

// Sets next of p's children by that of p.
fn hand_down(next: &mut [u16], rule: &Rule, p: usize)
    requires within { p < length rule.now.nodes.items }
    requires len { length next.old ≡ length rule.now.nodes.items }
    ensures { next.new ≡ handed_down (form_at rule.now.nodes.items p) p next.old }
{
    let after = next[p];
    match rule.form(p) {
        Form::Void | Form::Nil | Form::Leaf(_) => {}
        Form::Join(join, left, right) => {
            next[left] = match join {
                Join::Chain => right as u16,
                Join::Choice => after,
            };
            next[right] = after;
        }
        Form::Repeat(child) => next[child] = p as u16,
    }
}

// Fills the table of next, from the root down.
// p is a node's number: what follows it is handed to its children, wherever they stand.
pub(crate) fn fill_next(next: &mut [u16], rule: &Rule)
    requires { length next.old ≡ length rule.now.nodes.items }
    ensures { IsNext rule.now.nodes.items (λ q. slice_index next.new q) }
{
    let count = rule.nodes().len();
    next[count - 1] = count as u16;
    for p in (0..count).rev() {
        hand_down(next, rule, p);
    }
}
