//! Readers and writers of the standard library, files among them, as texts.
ghost use Rattle.std.specs.Prelude.{◌≡◌, false};

use crate::text::{InFailed, OutFailed, TextIn, TextOut};
use std::io::{Error, ErrorKind, Read, Write};
use std::marker::Model;

/// Returns whether a call failed only because it was interrupted.
fn was_interrupted(error: Error) -> bool {
    error.kind() == ErrorKind::Interrupted
}

/// A reader of the standard library as a text. A read that was interrupted is tried again.
pub struct FileIn<R: Read> {
    reader: R,
    has_failed: bool,
}

// Hand-written: a derived `Drop` would be proved anew at each exit (docs/PROVING.md).
impl<R: Read + Drop> Drop for FileIn<R> {
    fn drop(self) {
        let FileIn {
            reader: _,
            has_failed: _,
        } = self;
    }
}

impl<R: Read> Model for FileIn<R> {
    ghost use Rattle.rv_io.specs.Memory.{FileText};

    ghost Value = { FileText };

    ghost view = { λ f. record { bytes = R.remaining f.reader; has_failed = f.has_failed } };
}

impl<R: Read> FileIn<R> {
    /// Returns the text that `reader` gives from here on.
    pub fn new(reader: R) -> FileIn<R>
        ensures { result ≡ record { bytes = R.remaining reader; has_failed = false } }
    {
        FileIn {
            reader,
            has_failed: false,
        }
    }
}

impl<R: Read> TextIn for FileIn<R> {
    ghost left = { λ f. f.bytes };

    ghost has_failed = { λ f. f.has_failed };

    fn read(&mut self, buffer: &mut [u8]) -> Result<usize, InFailed> {
        'tries: for _ in 0..u64::MAX {
            match self.reader.read(buffer) {
                Ok(count) => return Ok(count),
                Err(error) => {
                    if !was_interrupted(error) {
                        break 'tries;
                    }
                }
            }
        }
        self.has_failed = true;
        Err(InFailed)
    }

    fn failed(&self) -> bool {
        self.has_failed
    }
}

/// A writer of the standard library as a text. A write that was interrupted is tried again.
///
/// A writer that keeps bytes back, as a `BufWriter` does, is flushed by its owner.
#[derive(Drop)]
pub struct FileOut<W: Write> {
    writer: W,
    has_failed: bool,
}

impl<W: Write> Model for FileOut<W> {
    ghost use Rattle.rv_io.specs.Memory.{FileText};

    ghost Value = { FileText };

    ghost view = { λ f. record { bytes = W.contents f.writer; has_failed = f.has_failed } };
}

impl<W: Write> FileOut<W> {
    /// Returns the text that is written to `writer` from here on.
    pub fn new(writer: W) -> FileOut<W>
        ensures { result ≡ record { bytes = W.contents writer; has_failed = false } }
    {
        FileOut {
            writer,
            has_failed: false,
        }
    }
}

impl<W: Write> TextOut for FileOut<W> {
    ghost taken = { λ f. f.bytes };

    ghost has_failed = { λ f. f.has_failed };

    fn write(&mut self, bytes: &[u8]) -> Result<usize, OutFailed> {
        'tries: for _ in 0..u64::MAX {
            match self.writer.write(bytes) {
                Ok(count) => {
                    self.has_failed |= count == 0 && !bytes.is_empty();
                    return Ok(count);
                }
                Err(error) => {
                    if !was_interrupted(error) {
                        break 'tries;
                    }
                }
            }
        }
        self.has_failed = true;
        Err(OutFailed)
    }

    fn failed(&self) -> bool {
        self.has_failed
    }
}
