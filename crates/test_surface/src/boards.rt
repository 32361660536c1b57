//! Boards and sessions over a memory that refuses writes, boards over a cache that counts its calls, and a source
//! that can't be a row of test_rows.
mod board;
mod cache;
mod memories;
mod programs;
mod sessions;
mod sources;
