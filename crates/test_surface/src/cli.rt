//! The command line: its words, readers and writers of a user or of std, and the names of faults.
mod faults;
mod runs;
mod texts;
mod words;
