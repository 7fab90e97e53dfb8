//! Bytes out: outputs, and a text that is gathered before it is written.

use std::test::Fail;
use std::{env, fs};
use vnff_base::{Failed, FileOut, Gathered, MemOut, Out, StdOut};

#[test]
fn writes_and_fails_as_told(rt: HostRuntime) -> Result<(), Fail> {
    let mut out = MemOut::new(rt.alloc(), 5)?;
    out.fail_at(1)?;
    assert_eq!(rt; out.put(b"abc"), Ok(()));
    assert_eq!(rt; out.put(b"d"), Err(Failed));
    assert_eq!(rt; out.put(b"def"), Err(Failed));
    assert_eq!(rt; out.put(b"de"), Ok(()));
    assert_eq!(rt; out.bytes(), b"abcde".as_slice());
    Ok(())
}

#[test]
fn writes_to_standard_output(rt: HostRuntime) -> Result<(), Fail> {
    let mut out = StdOut::new(rt.clone()?);
    assert_eq!(rt; out.put(b"standard output\n"), Ok(()));
    Ok(())
}

#[test]
fn writes_a_real_file(rt: HostRuntime) -> Result<(), Fail> {
    let mut path = env::temp_dir(&rt)?;
    path.push("vnff_base_file_out")?;
    let name = path.to_string_lossy();
    fs::write(&rt, name, b"what an earlier run left")?;
    let mut out = FileOut::new(rt.clone()?, String::from_str(rt.alloc(), name)?);
    assert_eq!(rt; fs::read(&rt, name)?.len(), 24);
    assert_eq!(rt; out.put(b"new "), Ok(()));
    assert_eq!(rt; out.put(b"bytes"), Ok(()));
    assert_eq!(rt; fs::read(&rt, name)?.as_slice(), b"new bytes".as_slice());
    fs::remove_file(&rt, name)?;
    let nowhere = String::from_str(rt.alloc(), "/nowhere/vnff_base_file_out")?;
    assert_eq!(rt; FileOut::new(rt.clone()?, nowhere).put(b"a"), Err(Failed));
    Ok(())
}

#[test]
fn puts_large_pieces(rt: HostRuntime) -> Result<(), Fail> {
    let mut out = MemOut::new(rt.alloc(), 262_144)?;
    out.fail_at(2)?;
    let mut text = Gathered::new(rt.alloc())?;
    let long = vec![in rt.alloc(); b'x'; 65_535]?;
    assert_eq!(rt; text.put(&mut out, long.as_slice()), Ok(()));
    assert_eq!(rt; text.put(&mut out, b"y"), Ok(()));
    assert_eq!(rt; out.bytes().len(), 0);
    assert_eq!(rt; text.put(&mut out, b"z"), Ok(()));
    assert_eq!(rt; out.bytes().len(), 65_536);
    assert_eq!(rt; text.finish(&mut out), Ok(()));
    assert!(rt; out.bytes().ends_with(b"xyz"));
    assert_eq!(rt; text.put(&mut out, &[b'w'; 70_000]), Err(Failed));
    Ok(())
}
