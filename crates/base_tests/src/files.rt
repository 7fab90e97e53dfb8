//! Files in: shelves, and a file that is read whole.

use std::io::{Write, pipe};
use std::os::fd::AsRawFd;
use std::test::Fail;
use std::{env, fs};
use vnff_base::{DirShelf, Failed, MemShelf, ReadErr, Shelf, read_all};

#[test]
fn reads_and_fails_as_told(rt: HostRuntime) -> Result<(), Fail> {
    let mut shelf = MemShelf::new(rt.alloc());
    shelf.add("a", b"old")?;
    shelf.add("a", b"new bytes")?;
    shelf.fail_at(1)?;
    let mut buf = [0u8; 4];
    assert_eq!(rt; shelf.read_at("a", 4, &mut buf), Ok(4));
    assert_eq!(rt; buf.as_slice(), b"byte".as_slice());
    assert_eq!(rt; shelf.read_at("a", 4, &mut buf), Err(Failed));
    assert_eq!(rt; shelf.read_at("b", 0, &mut buf), Err(Failed));
    assert_eq!(rt; shelf.read_at("a", 8, &mut buf), Ok(1));
    assert_eq!(rt; shelf.read_at("a", 9, &mut buf), Ok(0));
    Ok(())
}

#[test]
fn reads_to_the_end(rt: HostRuntime) -> Result<(), Fail> {
    let file = vec![in rt.alloc(); 7u8; 131_073]?;
    let length = file.len() as u64;
    let mut shelf = MemShelf::new(rt.alloc());
    shelf.add("file", file.as_slice())?;
    shelf.fail_at(7)?;
    // Pieces of 64 KiB: four reads, and then three, of which the piece behind the limit is the last.
    let whole = read_all(rt.alloc(), &mut shelf, "file", length);
    assert_eq!(rt; whole.ok().ok_or("not read")?, file);
    let longer = read_all(rt.alloc(), &mut shelf, "file", length - 1);
    assert_eq!(rt; longer.err(), Some(ReadErr::TooLong));
    let failed = read_all(rt.alloc(), &mut shelf, "file", length);
    assert_eq!(rt; failed.err(), Some(ReadErr::ReadFault));
    let missing = read_all(rt.alloc(), &mut shelf, "other", length);
    assert_eq!(rt; missing.err(), Some(ReadErr::ReadFault));
    Ok(())
}

#[test]
fn reads_a_real_file(rt: HostRuntime) -> Result<(), Fail> {
    let folder = env::temp_dir(&rt)?;
    let mut path = folder.clone()?;
    path.push("vnff_base_dir_shelf")?;
    let name = path.to_string_lossy();
    fs::write(&rt, name, b"a file")?;
    let mut shelf = DirShelf::new(rt.clone()?);
    let mut buf = [0u8; 8];
    assert_eq!(rt; shelf.read_at(name, 2, &mut buf), Ok(4));
    assert_eq!(rt; &buf[..4], b"file".as_slice());
    assert_eq!(rt; shelf.read_at(name, 6, &mut buf), Ok(0));
    assert_eq!(rt;
        shelf.read_at(folder.to_string_lossy(), 0, &mut buf),
        Err(Failed)
    );
    fs::remove_file(&rt, name)?;
    assert_eq!(rt; shelf.read_at(name, 0, &mut buf), Err(Failed));
    Ok(())
}

#[test]
fn reads_a_pipe_from_its_first_byte(rt: HostRuntime) -> Result<(), Fail> {
    let (reader, mut writer) = pipe(&rt)?;
    writer.write_all(b"piped")?;
    drop(writer);
    let path = format!(in rt.alloc(); "/proc/self/fd/{}", reader.as_raw_fd())?;
    let name = path.as_str();
    let mut shelf = DirShelf::new(rt.clone()?);
    let mut buf = [0u8; 3];
    assert_eq!(rt; shelf.read_at(name, 0, &mut buf), Ok(3));
    assert_eq!(rt; buf.as_slice(), b"pip".as_slice());
    assert_eq!(rt; shelf.read_at(name, 3, &mut buf), Ok(2));
    assert_eq!(rt; &buf[..2], b"ed".as_slice());
    assert_eq!(rt; shelf.read_at(name, 5, &mut buf), Ok(0));
    assert_eq!(rt; shelf.read_at(name, 4, &mut buf), Err(Failed));
    Ok(())
}

#[test]
fn reads_on_in_the_file_that_was_opened(rt: HostRuntime) -> Result<(), Fail> {
    let mut path = env::temp_dir(&rt)?;
    path.push("vnff_base_replaced")?;
    let name = path.to_string_lossy();
    let newer = format!(in rt.alloc(); "{name}.new")?;
    let mut shelf = DirShelf::new(rt.clone()?);
    let mut buf = [0u8; 3];
    fs::write(&rt, name, b"older")?;
    fs::write(&rt, newer.as_str(), b"NEWER")?;
    assert_eq!(rt; shelf.read_at(name, 0, &mut buf), Ok(3));
    fs::rename(&rt, newer.as_str(), name)?;
    assert_eq!(rt; shelf.read_at(name, 3, &mut buf), Ok(2));
    assert_eq!(rt; &buf[..2], b"er".as_slice());
    assert_eq!(rt; shelf.read_at(name, 1, &mut buf), Ok(3));
    assert_eq!(rt; buf.as_slice(), b"EWE".as_slice());
    fs::remove_file(&rt, name)?;
    Ok(())
}
