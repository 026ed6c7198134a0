// The listing of a rule's text: a line for each node, or the line of its fault.
ghost use Rattle.std.specs.Prelude.{◌≡◌, ◌+◌, [], ◌∷◌, ◌++◌, length, IfOk, Some, string_bytes};
ghost use Rattle.rulelist.specs.Listing.{letter_tests, field, row, listing as listing_of, fault_line as fault_line_of, Lists, Prints};

use lockstep::Tables;
use refusals::Fault;
use rule_text::{Entry, read};
use rules::{Node, Rule};
use std::alloc::{AllocError, Global};
use std::fmt;
use symbols::{ByteKind, ByteTest, Turned};

// The names of the program: any, a, b.
const NAMES: [Entry; 3] = [
    *b"any\0\0\0\0\0\0\0\0\0\0\0\0\0",
    *b"a\0\0\0\0\0\0\0\0\0\0\0\0\0\0\0",
    *b"b\0\0\0\0\0\0\0\0\0\0\0\0\0\0\0",
];

// A field of a line: a number, or `-` where there is none.
#[derive(Clone, Copy)]
struct Field(Option<u32>);

impl fmt::Display for Field {
    ghost output = { λ x. Some (field x.0) };

    fn fmt<W: fmt::Write>(&self, f: &mut fmt::Formatter<W>) -> fmt::Result {
        match self.0 {
            Some(n) => write!(f, "{n}"),
            None => write!(f, "-"),
        }
    }
}

// The line of a node.
#[derive(Clone, Copy)]
struct Line {
    number: usize,
    node: Node,
    next: u16,
    far: Option<u32>,
}

impl fmt::Display for Line {
    ghost output = { λ x. Some (row x.number x.node x.next x.far) };

    fn fmt<W: fmt::Write>(&self, f: &mut fmt::Formatter<W>) -> fmt::Result {
        let number = self.number;
        let kind = self.node.shape;
        let test = Field(self.node.shape.test().map(u32::from));
        let size = self.node.size;
        let next = self.next;
        let far = Field(self.far);
        writeln!(f, "{number} {kind} {test} {size} {next} {far}")
    }
}

// The line of a fault.
#[tactic(auto, using(crate::proofs::Faults::printed))]
fn fault_line(heap: Global, fault: Fault) -> Result<String, AllocError>
    ensures { IfOk result (λ s. string_bytes s ≡ fault_line_of fault) }
{
    format!(in heap; "fault {fault}\n")
}

// The header, and the line of each node.
fn table_text(
    heap: Global,
    nodes: &[Node],
    next: &[u16],
    far: &[Option<u32>],
) -> Result<String, AllocError>
    requires next { length next.now ≡ length nodes.now }
    requires far { length far.now ≡ length nodes.now + 1 }
    ensures { IfOk result (λ s. string_bytes s ≡ listing_of nodes.now next.now far.now) }
{
    let mut text = String::from_str(heap, "node kind test size next far\n")?;
    // by number, which the line shows: two zips, for next and far, would read worse
    for (number, node) in nodes.iter().enumerate() {
        let line = Line {
            number,
            node: *node,
            next: next[number],
            far: far[number],
        };
        write!(text, "{line}")?;
    }
    Ok(text)
}

// The test of one byte.
fn letter(byte: u8) -> ByteTest
    ensures { result ≡ record { lowest = byte; highest = byte } }
{
    ByteTest {
        lowest: byte,
        highest: byte,
    }
}

// The kind of the program: bytes 0 to 255, 97 and 98, and their opposites.
fn letters(heap: Global) -> Result<Turned<ByteKind>, AllocError>
    ensures { IfOk result (λ k. k.kind.tests.items ≡ letter_tests) }
{
    let mut bytes = ByteKind::new(heap)?;
    bytes.add(letter(b'a')).unwrap();
    bytes.add(letter(b'b')).unwrap();
    Ok(Turned::over(bytes).unwrap())
}

// The listing of a rule.
fn list_rule(heap: Global, rule: &Rule) -> Result<String, AllocError>
    ensures { IfOk result (λ s. Lists rule.now.nodes.items (string_bytes s)) }
{
    let kind = letters(heap)?;
    let mut tables = Tables::new(heap)?;
    tables.fill(rule, &kind);
    table_text(heap, rule.nodes(), tables.next(), tables.far())
}

// What the program prints for a text: the listing of its rule, or the line of its fault.
pub fn listing(heap: Global, text: &[u8]) -> Result<String, AllocError>
    ensures { IfOk result (λ s. Prints text.now (string_bytes s)) }
{
    let mut rule = Rule::new(heap)?;
    match read(&NAMES, text, &mut rule) {
        Ok(()) => list_rule(heap, &rule),
        Err(fault) => fault_line(heap, fault),
    }
}
