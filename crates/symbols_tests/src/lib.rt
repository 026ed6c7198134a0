// Tests of the kinds of symbol, over the library as another crate sees it.
#![tactic(auto)]

#[cfg(test)]
mod byte_kinds;
#[cfg(test)]
mod plain;
#[cfg(test)]
mod row_kinds;
#[cfg(test)]
mod rows;
#[cfg(test)]
mod telling;
#[cfg(test)]
mod turned_kinds;
