// Kinds of symbol: the traits that say what a kind is and how it shows a symbol, bytes, rows, and kinds with the opposites of their tests.
#![tactic(auto)]

mod bytes;
mod kind;
mod row_kind;
mod rows;
mod showing;
mod symbol_test;
mod test_list;
mod turned;

pub use bytes::{ByteKind, ByteTest};
pub use kind::Kind;
pub use row_kind::{RowKind, RowTest};
pub use rows::Row;
pub use showing::Showing;
pub use turned::{NotTurned, Turned};
