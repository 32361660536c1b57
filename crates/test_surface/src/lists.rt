//! Timed lists.
mod inputs;
mod refusals;
