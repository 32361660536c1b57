//! Instructions: words that none has, names, and texts behind others.
mod names;
mod texts;
mod words;
