//! A reader of a file, which keeps why a read failed.

ghost use Rattle.std.specs.Prelude.{◌≡◌, ◌≤◌, None};

use std::io;
use std::io::{ErrorKind, Read};
use streams::{ReadFailed, Source};

/// A reader of a file, with the counts of its calls and failures, and the last failure.
#[derive(Drop)]
pub(crate) struct FileReader<R> {
    reader: R,
    /// Why a read failed.
    pub fault: Option<io::Error>,
    calls: u64,
    failures: u64,
    ghost fewer: { failures ≤ calls },
}

impl<R: Read> FileReader<R> {
    /// The reader, with nothing counted.
    pub fn new(reader: R) -> FileReader<R>
        ensures reader { result.reader ≡ reader }
        ensures calls { result.calls ≡ 0 }
    {
        FileReader {
            reader,
            fault: None,
            calls: 0,
            failures: 0,
        }
    }
}

impl<R: Read> Source for FileReader<R> {
    ghost remaining = { λ s. R.remaining s.reader };

    ghost calls = { λ s. s.calls };

    ghost failures = { λ s. s.failures };

    fn next(&mut self, room: &mut [u8]) -> Result<Option<usize>, ReadFailed> {
        match self.reader.read(room) {
            Ok(0) => {
                self.calls += 1;
                Ok(None)
            }
            Ok(n) => {
                self.calls += 1;
                Ok(Some(n))
            }
            Err(error) => {
                self.calls += 1;
                if error.kind() == ErrorKind::Interrupted {
                    return Ok(Some(0));
                }
                self.failures += 1;
                self.fault = Some(error);
                Err(ReadFailed)
            }
        }
    }
}
