//! Each form with the reads of its files and the writes of its text failing in turn.

use crate::live;
use crate::run::{SCRIPT, status};
use crate::steered::capture;
use std::alloc::{AllocError, Global};
use std::test::Fail;
use steer::Open;
use vnff_base::{MemOut, MemShelf};
use vnff_run::{DONE, READ_FAULT, WRITE_FAULT};

/// The words of the forms, over a script, a capture, a device, a table and an image of guest memory.
const FORMS: [&[&str]; 6] = [
    &["replay", "s"],
    &["compile", "d", "t"],
    &["table", "d", "t", "c"],
    &["steer", "s", "c"],
    &["drain", "i", "1", "0", "16", "24"],
    &["gen", "1", "2"],
];

/// A live run whose workers are told of every command before any frame, so that it has one text.
const LIVE: &[&str] = &["live", "2", "3", "s", "c"];

const DEVICE: &[u8] = b"vnff 1\ndevice 4 2 4 8 8 15 3 ready\n";

const TABLE: &[u8] = b"flow-type ip4 action 1\n";

/// The number of a call that is never made.
const NEVER: u64 = 1 << 32;

fn shelf(alloc: Global) -> Result<MemShelf, AllocError> {
    let mut image = [0; 38];
    image[18] = 1;
    let mut shelf = MemShelf::new(alloc);
    shelf.add("s", SCRIPT)?;
    shelf.add("c", capture(alloc)?.as_slice())?;
    shelf.add("d", DEVICE)?;
    shelf.add("t", TABLE)?;
    shelf.add("i", &image)?;
    Ok(shelf)
}

fn words(alloc: Global, form: &[&str]) -> Result<Vec<String>, AllocError> {
    let mut words = Vec::new(alloc);
    for word in form {
        words.push(String::from_str(alloc, word)?)?;
    }
    Ok(words)
}

/// The status and the output of a form, where one read and one write of a number fail.
fn ended(alloc: Global, form: &[&str], read: u64, write: u64) -> Result<(u8, MemOut), AllocError> {
    let words = words(alloc, form)?;
    let mut shelf = shelf(alloc)?;
    shelf.fail_at(read)?;
    let mut out = MemOut::new(alloc, 4096)?;
    out.fail_at(write)?;
    let status = status(alloc, words.as_slice(), &mut shelf, &mut out)?;
    Ok((status, out))
}

/// Whether each run in which a read fails ends with 3 and nothing written, up to one in which none does.
fn reads_are_answered(alloc: Global, form: &[&str]) -> Result<bool, AllocError> {
    for read in 0..16u64 {
        let (status, out) = ended(alloc, form, read, NEVER)?;
        if status == DONE {
            return Ok(true);
        }
        if status != READ_FAULT || !out.bytes().is_empty() {
            return Ok(false);
        }
    }
    Ok(false)
}

/// Whether each run in which a write fails ends with 4 and a front of the text, up to one in which none does.
fn writes_are_answered(alloc: Global, form: &[&str]) -> Result<bool, AllocError> {
    let (_, whole) = ended(alloc, form, NEVER, NEVER)?;
    for write in 0..256u64 {
        let (status, out) = ended(alloc, form, NEVER, write)?;
        if status == DONE {
            return Ok(out.bytes() == whole.bytes());
        }
        if status != WRITE_FAULT || !whole.bytes().starts_with(out.bytes()) {
            return Ok(false);
        }
    }
    Ok(false)
}

#[test]
fn each_read_fails_in_turn(rt: HostRuntime) -> Result<(), Fail> {
    for form in FORMS {
        assert!(rt; reads_are_answered(rt.alloc(), form)?);
    }
    Ok(())
}

#[test]
fn each_write_fails_in_turn(rt: HostRuntime) -> Result<(), Fail> {
    for form in FORMS {
        assert!(rt; writes_are_answered(rt.alloc(), form)?);
    }
    Ok(())
}

// The first read of each of the two files, the second ones, which find their ends, and the one write.
#[test]
fn a_live_run_has_its_calls_fail_in_turn(rt: HostRuntime) -> Result<(), Fail> {
    let alloc = rt.alloc();
    let words = words(alloc, LIVE)?;
    for (read, write, wanted) in [
        (0, NEVER, READ_FAULT),
        (1, NEVER, READ_FAULT),
        (2, NEVER, READ_FAULT),
        (3, NEVER, READ_FAULT),
        (NEVER, 0, WRITE_FAULT),
        (NEVER, 1, DONE),
    ] {
        let mut shelf = shelf(alloc)?;
        shelf.fail_at(read)?;
        let mut out = MemOut::new(alloc, 4096)?;
        out.fail_at(write)?;
        let status = live::status(&rt, alloc, words.as_slice(), &mut shelf, &mut out, &Open)?;
        assert_eq!(rt; status, wanted);
        assert!(rt; status == DONE || out.bytes().is_empty());
    }
    Ok(())
}
