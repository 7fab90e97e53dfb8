//! A shelf in memory, that fails where it is told to.

ghost use Rattle.std.specs.Prelude.{◌≡◌, ◌+◌, ◌-◌, ◌<◌, ◌≤◌, min, drop, [], ◌∷◌, ◌++◌, length, Some, None, option_copied, IfSome, IfOk, OnOk, OnErr, IsErr, MatchResult, Contains, ◌↔◌, ◌⊎◌};
ghost use Rattle.vnff_base.specs.Counts.{count_with};
ghost use Rattle.vnff_base.specs.MemShelves.{file_named, shelf_state};
ghost use Rattle.vnff_base.specs.Shelves.{Fills, ReadsFile, HasCause};

use crate::out::Failed;
use crate::shelf::Shelf;
use std::alloc::{AllocError, Global};
use std::marker::Model;

/// A file under its name.
#[derive(Drop)]
struct File {
    name: Vec<u8>,
    bytes: Vec<u8>,
}

impl Model for File {
    ghost use Rattle.vnff_base.specs.MemShelves.{NamedFile};

    ghost Value = { NamedFile };

    ghost view = { λ f. record { name = f.name.items; bytes = f.bytes.items } };
}

/// A shelf in memory. It fails at the calls that `fail_at` named, and at a name that isn't there.
#[derive(Drop)]
pub struct MemShelf {
    files: Vec<File>,
    failing: Vec<u64>,
    calls: u64,
    faults: u64,
    given: u64,
}

impl Model for MemShelf {
    ghost use Rattle.vnff_base.specs.MemShelves.{MemShelfState};

    ghost Value = { MemShelfState };

    ghost view = { λ s. record {
      files = s.files.items;
      failing = s.failing.items;
      calls = s.calls;
      faults = s.faults;
      given = s.given;
    } };
}

impl MemShelf {
    /// A shelf with no file, of which no call is to fail.
    pub fn new(alloc: Global) -> MemShelf
        ensures { result ≡ record { files = []; failing = []; calls = 0; faults = 0; given = 0 } }
    {
        MemShelf {
            files: Vec::new(alloc),
            failing: Vec::new(alloc),
            calls: 0,
            faults: 0,
            given: 0,
        }
    }

    /// Puts a file on the shelf, in the place of an earlier one of that name.
    pub fn add(&mut self, name: &str, bytes: &[u8]) -> Result<(), AllocError>
        ensures ok { OnOk result (self.new
            ≡ record self.old { files = record { name = name.now; bytes = bytes.now } ∷ self.old.files }) }
        ensures err { OnErr result (self.new ≡ self.old) }
    {
        let alloc = *self.files.allocator();
        let name = Vec::from_slice(alloc, name.as_bytes())?;
        let bytes = Vec::from_slice(alloc, bytes)?;
        self.files.insert(0, File { name, bytes })?;
        Ok(())
    }

    /// Makes the read of that number fail; reads count from 0.
    pub fn fail_at(&mut self, call: u64) -> Result<(), AllocError>
        ensures ok { OnOk result (self.new ≡ record self.old { failing = self.old.failing ++ call ∷ [] }) }
        ensures err { OnErr result (self.new ≡ self.old) }
    {
        self.failing.push(call)?;
        Ok(())
    }
}

impl Shelf for MemShelf {
    ghost state = { shelf_state };

    /// Gives as many bytes as the buffer takes and the file has, and touches no more of the buffer.
    fn read_at(&mut self, name: &str, at: u64, buf: &mut [u8]) -> Result<usize, Failed>
        // What each shelf promises.
        ensures fits { IfOk result (λ n. n ≤ length buf.new) }
        ensures bytes { IfOk result (λ n. ReadsFile (shelf_state self.old) name.now at n buf.new) }
        ensures given { MatchResult result
            (λ n. self.new.given ≡ count_with self.old.given n)
            (λ _. self.new.given ≡ self.old.given) }
        ensures faults { MatchResult result
            (λ _. self.new.faults ≡ self.old.faults)
            (λ _. self.old.faults ≤ self.new.faults) }
        ensures cause { OnErr result (HasCause (shelf_state self.old) (shelf_state self.new) name.now) }
        ensures same_files { Some (file_named self.new.files) ≡ Some (file_named self.old.files) }

        // It fails at the calls named for it and where the file isn't there, and at no other call.
        ensures fails { IsErr result
            ↔ (Contains self.old.failing self.old.calls ⊎ (file_named self.old.files name.now ≡ None)) }
        // The calls named for it alone are counted as failures.
        ensures counted { Contains self.old.failing self.old.calls → self.new.faults ≡ count_with self.old.faults 1 }
        ensures missed { (Contains self.old.failing self.old.calls → ⊥) → self.new.faults ≡ self.old.faults }
        ensures whole { IfOk result (λ n. IfSome (file_named self.old.files name.now)
            (λ file. n ≡ min (length buf.new) (length file - at))) }
        // What is behind these bytes in the buffer stays, and all of it after a failure.
        ensures behind { IfOk result (λ n. drop n buf.new ≡ drop n buf.old) }
        ensures untouched { OnErr result (buf.new ≡ buf.old) }
        ensures rest { self.new ≡ record self.old {
          calls = count_with self.old.calls 1;
          faults = self.new.faults;
          given = self.new.given;
        } }
    {
        let call = self.calls;
        self.calls = call.saturating_add(1);
        if self.failing.contains(&call) {
            self.faults = self.faults.saturating_add(1);
            return Err(Failed);
        }
        match find(&self.files, name.as_bytes()) {
            None => Err(Failed),
            Some(file) => {
                let taken = copy_from(file, at, buf);
                self.given = self.given.saturating_add(taken as u64);
                Ok(taken)
            }
        }
    }
}

/// The bytes of the newest file of a name.
fn find<'a>(files: &'a [File], name: &[u8]) -> Option<&'a [u8]>
    ensures { option_copied result ≡ file_named files.now name.now }
{
    files
        .iter()
        .find(|file| file.name.as_slice() == name)
        .map(|file| file.bytes.as_slice())
}

/// Copies the bytes of a file from a place on into the front of a buffer, and says how many.
fn copy_from(file: &[u8], at: u64, buf: &mut [u8]) -> usize
    ensures fills { Fills file.now at result buf.new }
    ensures whole { result ≡ min (length buf.new) (length file.now - at) }
    ensures behind { drop result buf.new ≡ drop result buf.old }
{
    let start = at.min(file.len() as u64) as usize;
    let rest = &file[start..];
    let taken = rest.len().min(buf.len());
    buf[..taken].copy_from_slice(&rest[..taken]);
    taken
}
