//! The output to a real file: the edge where proofs end.

ghost use Rattle.std.specs.Prelude.{◌≡◌, None};

use crate::out::{Failed, Out};
use std::io::Write;
use std::rt::Files;
use std::{fs, io};

/// A file that is written from its beginning. It is opened at the first put, which makes it or empties it: an output
/// that is given nothing touches no file. It tells no contract what was written.
#[derive(Drop)]
pub struct FileOut<R: Files> {
    rt: R,
    path: String,
    file: Option<R::File>,
    faults: u64,
}

impl<R: Files> FileOut<R> {
    /// The output to the file of that path, which isn't opened yet, with no failure yet.
    pub fn new(rt: R, name: String) -> FileOut<R>
        ensures { ⟦<FileOut<R> as Out>⟧.state result ≡ record { told = None; faults = 0 } }
    {
        FileOut {
            rt,
            path: name,
            file: None,
            faults: 0,
        }
    }

    /// Writes a piece behind what was written, in the file that is open or is opened now.
    fn write_piece(&mut self, piece: &[u8]) -> io::Result<()>
        ensures counts { self.new.faults ≡ self.old.faults }
    {
        let mut file = match self.file.take() {
            Some(file) => file,
            None => fs::create(&self.rt, self.path.as_str())?,
        };
        let written = file.write_all(piece);
        self.file = Some(file);
        written
    }
}

impl<R: Files> Out for FileOut<R> {
    ghost state = { λ o. record { told = None; faults = o.faults } };

    /// A file that can't be made, and one that can't be written, are each a failed put.
    fn put(&mut self, piece: &[u8]) -> Result<(), Failed> {
        match self.write_piece(piece) {
            Ok(()) => Ok(()),
            Err(_) => {
                self.faults = self.faults.saturating_add(1);
                Err(Failed)
            }
        }
    }
}
