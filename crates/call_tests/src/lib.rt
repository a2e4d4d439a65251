//! Tests of public calls that no case covers: streams, numerals, forests, replies, scopes, definitions, blocks and arguments by
//! number, and values that are too long.
#![tactic(auto)]

#[cfg(test)]
mod arguments;
#[cfg(test)]
mod blocks;
#[cfg(test)]
mod dynamic;
#[cfg(test)]
mod forests;
#[cfg(test)]
mod numerals;
#[cfg(test)]
mod outside;
#[cfg(test)]
mod reading;
#[cfg(test)]
mod replies;
#[cfg(test)]
mod scopes;
#[cfg(test)]
mod values;
