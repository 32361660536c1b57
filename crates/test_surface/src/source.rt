//! The lines of a source, and their labels and statements.
mod lines;
mod statements;
