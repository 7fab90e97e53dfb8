//! The shelf of real files: the edge where proofs end.

ghost use Rattle.std.specs.Prelude.{◌≡◌, ◌≤◌, ◌↔◌, length, None, IfOk, IsSomeAnd, IsTrue};
ghost use Rattle.vnff_base.specs.Counts.{count_with};
ghost use Rattle.vnff_base.specs.OpenedFiles.{IsOpenAt};

use crate::out::Failed;
use crate::shelf::Shelf;
use std::io::{Read, Seek, SeekFrom};
use std::rt::Files;
use std::{fs, io};

/// The files of the system, each under its path. It tells no contract what they hold.
///
/// The file that is read stays open, so that piece after piece comes from the file that was opened, whatever else
/// stands under its path by then, and a pipe is read to its end as well.
#[derive(Drop)]
pub struct DirShelf<R: Files> {
    rt: R,
    reading: Option<OpenedFile<R::File>>,
    faults: u64,
    given: u64,
}

/// A file that is read, with its path and the place of its next byte.
#[derive(Drop)]
struct OpenedFile<F: Drop> {
    path: String,
    file: F,
    place: u64,
}

impl<R: Files + AllocGlobal> DirShelf<R> {
    /// The files that the runtime reaches, with no failure yet and no byte given.
    pub fn new(rt: R) -> DirShelf<R>
        ensures { ⟦<DirShelf<R> as Shelf>⟧.state result ≡ record { files = None; faults = 0; given = 0 } }
    {
        DirShelf {
            rt,
            reading: None,
            faults: 0,
            given: 0,
        }
    }

    /// Takes the file that is read, where it goes on at that place, or opens the file of that path there. A read from
    /// the first byte on opens the file anew.
    fn take_file(&mut self, path: &str, at: u64) -> io::Result<OpenedFile<R::File>>
        ensures there { IfOk result (λ opened. IsOpenAt path.now at opened) }
        ensures counts { (self.new.faults ≡ self.old.faults) × (self.new.given ≡ self.old.given) }
    {
        match self.reading.take() {
            Some(opened) if at > 0 && opened.goes_on(path, at) => Ok(opened),
            _ => open_at(&self.rt, path, at),
        }
    }

    /// Reads the piece at a place of a file, and keeps the file for the piece behind it.
    fn read_piece(&mut self, path: &str, at: u64, buf: &mut [u8]) -> io::Result<usize>
        ensures fits { IfOk result (λ n. n ≤ length buf.new) }
        ensures kept { IfOk result (λ n. IsSomeAnd self.new.reading (IsOpenAt path.now (count_with at n))) }
        ensures counts { (self.new.faults ≡ self.old.faults) × (self.new.given ≡ self.old.given) }
    {
        let mut opened = self.take_file(path, at)?;
        let taken = opened.file.read(buf)?;
        opened.place = at.saturating_add(taken as u64);
        self.reading = Some(opened);
        Ok(taken)
    }
}

impl<F: Drop> OpenedFile<F> {
    /// Whether the byte at a place of the file of that path is the next one.
    fn goes_on(&self, path: &str, at: u64) -> bool
        ensures { IsTrue result ↔ IsOpenAt path.now at self.now }
    {
        self.place == at && self.path.as_str() == path
    }
}

/// Opens a file at a place. A pipe has its first byte alone as a place.
fn open_at<R: Files + AllocGlobal>(rt: &R, path: &str, at: u64) -> io::Result<OpenedFile<R::File>>
    ensures { IfOk result (λ opened. IsOpenAt path.now at opened) }
{
    let mut file = fs::open(rt, path)?;
    if at > 0 {
        file.seek(SeekFrom::Start(at))?;
    }
    Ok(OpenedFile {
        path: String::from_str(rt.alloc(), path)?,
        file,
        place: at,
    })
}

impl<R: Files + AllocGlobal> Shelf for DirShelf<R> {
    ghost state = { λ s. record { files = None; faults = s.faults; given = s.given } };

    /// A missing file, a folder, a file that can't be read, and one whose path there is no memory to keep, are each a
    /// failed read.
    fn read_at(&mut self, name: &str, at: u64, buf: &mut [u8]) -> Result<usize, Failed> {
        match self.read_piece(name, at, buf) {
            Ok(taken) => {
                self.given = self.given.saturating_add(taken as u64);
                Ok(taken)
            }
            Err(_) => {
                self.faults = self.faults.saturating_add(1);
                Err(Failed)
            }
        }
    }
}
