//! Every item of the public surface by its name and with its type: a change of either doesn't compile.
//!
//! A constant has no proof, so it costs none. What is generic stands here over memories, caches, readers and
//! writers of the libraries; the tests of boards call it over a user's own.
mod assembling;
mod devices;
mod instructions;
mod machine;
mod memories;
mod protection;
mod runs;
mod sessions;
mod variants;
