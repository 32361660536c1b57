//! Tests: the public surface that users of the libraries write code by, and what rows of test_rows can't show:
//! instructions by their words, memories and caches by the calls of their traits, the largest console, timed lists,
//! sources by their lines, tokens, statements and listings, the rows of test_definitions and test_language, boards and
//! sessions over a user's own memory and cache, and the command line.
//!
//! They are in one crate, since each crate with tests is proved as a program, which reads the code of all libraries. It
//! is a program also without its tests, since a constant of a library may not name each function of the surface. But
//! then it reaches nothing.
#![tactic(auto)]

#[cfg(test)]
mod boards;
#[cfg(test)]
mod caches;
#[cfg(test)]
mod checks;
#[cfg(test)]
mod cli;
#[cfg(test)]
mod console;
#[cfg(test)]
mod definitions;
#[cfg(test)]
mod instructions;
#[cfg(test)]
mod lists;
#[cfg(test)]
mod memories;
#[cfg(test)]
mod source;
#[cfg(test)]
mod surface;

/// Does nothing: the crate is its tests.
fn main() {}
