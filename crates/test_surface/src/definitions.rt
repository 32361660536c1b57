//! The rows of test_definitions and test_language, of which laws say there that the definitions give them: the program
//! gives them, too.
mod controller;
mod protection;
mod registers;
mod runs;
mod sources;
mod timer;
mod traps;
mod values;
mod words;
