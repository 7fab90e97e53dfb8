//! Scripts, and the program's call.

use ff_headers::Kind;
use rx_sinks::{CountSink, Rack, RxSink};
use std::alloc::{AllocError, Global};
use std::test::Fail;
use vnff_base::{MemOut, MemShelf};
use vnff_run::{DONE, Item, Reason, ScriptFault, WRITE_FAULT, plain, read_script};

// A group, a classifier and a rule are created, and a frame goes to the rule's queue.
pub const SCRIPT: &[u8] = b"\
    vnff 1\n\
    device 4 2 4 8 8 15 3 ready\n\
    admin 0a0000000000000000000000000000000000000000000000000200000100000000000000000000000500 8\n\
    admin 0a0000000000000000000000000000000000000000000000\
    010200000700000000000000000000000100000000000000010000000e000000000000000000000000000000ffff 8\n\
    admin 0a0000000000000000000000000000000000000000000000\
    020200000900000000000000000000000100000007000000000e0200020000000000000000000000000000000800 8\n\
    frame ffffffffffff0200000000010800\n\
    ";

const WRITTEN: &[u8] = b"\
    reply 0000000000000000\n\
    reply 0000000000000000\n\
    reply 0000000000000000\n\
    frame queue 1\n\
    ";

fn words(alloc: Global, form: &str, name: &str) -> Result<Vec<String>, AllocError> {
    let form = String::from_str(alloc, form)?;
    let name = String::from_str(alloc, name)?;
    Ok(vec![in alloc; form, name]?)
}

fn shelf(alloc: Global) -> Result<MemShelf, AllocError> {
    let mut shelf = MemShelf::new(alloc);
    shelf.add("script", SCRIPT)?;
    Ok(shelf)
}

/// What the call of all forms but `live` answers, over sinks that keep nothing.
pub fn status(
    alloc: Global,
    words: &[String],
    shelf: &mut MemShelf,
    out: &mut MemOut,
) -> Result<u8, AllocError> {
    let mut sinks: Vec<Box<dyn RxSink>> = Vec::new(alloc);
    for _queue in 0..16u8 {
        sinks.push(Box::new(alloc, CountSink::new())?)?;
    }
    Ok(plain(alloc, words, shelf, out, &mut Rack::new(sinks)))
}

#[test]
fn replays_a_script(rt: HostRuntime) -> Result<(), Fail> {
    let alloc = rt.alloc();
    let mut out = MemOut::new(alloc, 1024)?;
    let words = words(alloc, "replay", "script")?;
    assert_eq!(rt;
        status(alloc, words.as_slice(), &mut shelf(alloc)?, &mut out)?,
        DONE
    );
    assert_eq!(rt; out.bytes(), WRITTEN);
    Ok(())
}

#[test]
fn ends_where_the_first_write_fails(rt: HostRuntime) -> Result<(), Fail> {
    let alloc = rt.alloc();
    let mut out = MemOut::new(alloc, 1024)?;
    out.fail_at(0)?;
    let words = words(alloc, "replay", "script")?;
    assert_eq!(rt;
        status(alloc, words.as_slice(), &mut shelf(alloc)?, &mut out)?,
        WRITE_FAULT
    );
    assert!(rt; WRITTEN.starts_with(out.bytes()));
    Ok(())
}

// A ring of one descriptor, for a buffer of no bytes.
#[test]
fn drains_a_queue(rt: HostRuntime) -> Result<(), Fail> {
    let alloc = rt.alloc();
    let mut image = [0; 38];
    image[18] = 1;
    let mut shelf = MemShelf::new(alloc);
    shelf.add("image", &image)?;
    let mut out = MemOut::new(alloc, 64)?;
    let mut words = Vec::new(alloc);
    for word in ["drain", "image", "1", "0", "16", "24"] {
        words.push(String::from_str(alloc, word)?)?;
    }
    assert_eq!(rt;
        status(alloc, words.as_slice(), &mut shelf, &mut out)?,
        DONE
    );
    assert_eq!(rt; out.bytes(), b"chain 0 - 0\nend 1\n".as_slice());
    Ok(())
}

#[test]
fn reads_a_script(rt: HostRuntime) -> Result<(), Fail> {
    let text =
        b"vnff 1\ndevice 4 2 4 8 8 15 3 reset\nselect udp whole 00ff000000000000\nadmin 0A 8\nframe -\n";
    let script = read_script(rt.alloc(), text)?;
    assert_eq!(rt; script.caps.pairs(), 4);
    let selectors = script.caps.selectors();
    assert_eq!(rt; selectors.len(), 1);
    assert_eq!(rt; selectors[0].kind(), Kind::Udp);
    assert_eq!(rt; selectors[0].flags(), 0);
    assert_eq!(rt; selectors[0].mask(), [0, 255, 0, 0, 0, 0, 0, 0].as_slice());
    assert_eq!(rt; script.items.len(), 2);
    assert!(rt; matches!(script.items.at(0), Some(Item::Admin(line)) if line.room == 8));
    assert!(rt; matches!(script.items.at(1), Some(Item::Frame(frame)) if frame.is_empty()));
    Ok(())
}

// The first fault of a text.
fn fault(alloc: Global, text: &[u8]) -> Option<ScriptFault> {
    if text.len() > 128 {
        return None;
    }
    read_script(alloc, text).err()
}

#[test]
fn first_faults(rt: HostRuntime) {
    let cases: [(&[u8], u32, Reason); 8] = [
        (b"", 1, Reason::Version),
        (b"vnff 1", 2, Reason::Device),
        (b"vnff 1\ndevice 4 2 4 8 8 15 4 ready", 2, Reason::Number),
        (
            b"vnff 1\ndevice 4 2 4 8 8 15 3 ready\nselect ipv4 whole 00",
            3,
            Reason::Select,
        ),
        (
            b"vnff 1\ndevice 4 2 4 8 8 15 3 ready\n\nframe f",
            4,
            Reason::Hex,
        ),
        (
            b"vnff 1\ndevice 4 2 4 8 8 15 3 ready\nadmin 0a 4097",
            3,
            Reason::Room,
        ),
        (
            b"vnff 1\ndevice 4 2 4 8 8 15 3 ready\nframe -\nselect udp whole 0000000000000000",
            4,
            Reason::Word,
        ),
        (
            b"vnff 1\ndevice 4 2 4 8 8 15 3 ready\nadmin 0b",
            3,
            Reason::Word,
        ),
    ];
    for (text, line, reason) in cases {
        assert_eq!(rt;
            fault(rt.alloc(), text),
            Some(ScriptFault::Bad(line, reason))
        );
    }
}
