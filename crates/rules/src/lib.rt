// Rules: well-formed lists of nodes, and room to draft the next one.
#![tactic(auto)]

ghost use Rattle.rules.specs.Children.{OneParent};

mod node;
mod record;
mod rule;

pub use node::{Form, Join, Node, Shape};
pub use record::{Record, records_return};
pub use rule::{Draft, MAX_NODES, Rule};

// That each node but the root is the child of one node, which stands later, is proved here.
pub fn structure_stands()
    ensures { OneParent }
{}
