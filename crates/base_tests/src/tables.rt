//! Tables of specs, read from text and written as canonical lines.

use ntuple_text::{Flow, Part, Table, TableDo, TextErr, put_spec, put_table, read_table};
use std::alloc::Global;
use std::test::Fail;
use vnff_base::{Failed, MemOut};

// The table of a text of at most 256 bytes, for four queue pairs.
fn table_read(alloc: Global, text: &[u8]) -> Result<Table, TextErr> {
    if text.len() > 256 {
        return Err(TextErr::Memory);
    }
    read_table(alloc, text, 4)
}

#[test]
fn reads_a_table(rt: HostRuntime) -> Result<(), Fail> {
    let text =
        b"flow-type ether dst 2:0:0:0:0:1 m 0:0:0:0:0:ff action -1\r\nflow-type ip6 src-ip ::1 queue 0x3\n";
    let table = table_read(rt.alloc(), text)?;
    assert_eq!(rt; table.len(), 2);
    let first = table.at(1023).ok_or("the first spec")?;
    assert_eq!(rt; first.flow, Flow::Ether);
    assert_eq!(rt;
        first.dst,
        Some(Part {
            value: 0x0200_0000_0001,
            skip: 0xff
        })
    );
    assert_eq!(rt; first.action, TableDo::Drop);
    let second = table.at(1022).ok_or("the second spec")?;
    assert_eq!(rt; second.src, Some(Part { value: 1, skip: 0 }));
    assert_eq!(rt; second.action, TableDo::Queue(3));
    assert!(rt; table.at(1024).is_none());
    Ok(())
}

#[test]
fn refusals(rt: HostRuntime) {
    let cases: [(&[u8], TextErr); 16] = [
        (b"flow-type tcp4 dst-port 080 action 1", TextErr::Octal(1)),
        (b"flow-type tcp4 tclass 1 action 1", TextErr::NotInFlow(1)),
        (b"flow-type ip4 action 1 queue 1", TextErr::Twice(1)),
        (b"flow-type ip4 tos 256 action 1", TextErr::Number(1)),
        (
            b"flow-type ip6 src-ip 1::2::3 action 1",
            TextErr::Address(1),
        ),
        (b"flow-type ip4", TextErr::NoAction(1)),
        (b"flow-type ip4 action 4", TextErr::Queue(1)),
        (b"flow-type ip4 action 1 loc 1024", TextErr::Loc(1)),
        (b"delete 3", TextErr::NoSuchLoc(1)),
        (b"flow-type ip4 action -2", TextErr::Number(1)),
        (b"# a\n\nflow-type ip4 action", TextErr::Word(3)),
        (b"flow-type ip4 tos m action 1", TextErr::Number(1)),
        (b"flow-type ip4 queue -1", TextErr::Number(1)),
        (b"flow-type ip4 tos 1 m 2 m 3", TextErr::Word(1)),
        (b"ethtool -N eth0 # a", TextErr::Word(1)),
        (b"ethtool -n eth0 delete 1", TextErr::Word(1)),
    ];
    for (text, err) in cases {
        assert_eq!(rt; table_read(rt.alloc(), text).err(), Some(err));
    }
}

// The table of so many lines that give no location, for four queue pairs.
fn table_of_lines(alloc: Global, count: usize) -> Result<Table, TextErr> {
    let mut text = String::new(alloc);
    for _ in 0..count {
        if text.push_str("flow-type ip4 action 0\n").is_err() {
            return Err(TextErr::Memory);
        }
    }
    let bytes = text.as_bytes();
    if bytes.len() > 67_108_864 {
        return Err(TextErr::Memory);
    }
    read_table(alloc, bytes, 4)
}

#[test]
fn a_full_table_takes_no_line(rt: HostRuntime) -> Result<(), Fail> {
    let full = table_of_lines(rt.alloc(), 1024)?;
    assert_eq!(rt; full.len(), 1024);
    let refused = table_of_lines(rt.alloc(), 1025).err();
    assert_eq!(rt; refused, Some(TextErr::TableFull(1025)));
    Ok(())
}

#[test]
fn writes_canonical_lines(rt: HostRuntime) -> Result<(), Fail> {
    let text = b"flow-type ip6 src-ip ::A m ::f loc 4 action 0\n\
        flow-type ether proto 2054 m 0xff00 action -1 loc 3";
    let table = table_read(rt.alloc(), text)?;
    let mut lines = MemOut::new(rt.alloc(), 256)?;
    assert_eq!(rt; put_table(&mut lines, &table), Ok(()));
    let canonical = b"flow-type ether proto 0x0806 m 0xff00 action -1 loc 3\n\
        flow-type ip6 src-ip 0:0:0:0:0:0:0:a m 0:0:0:0:0:0:0:f action 0 loc 4\n";
    assert_eq!(rt; lines.bytes(), canonical.as_slice());
    let spec = table.at(3).ok_or("a spec")?;
    let mut line = MemOut::new(rt.alloc(), 256)?;
    assert_eq!(rt; put_spec(&mut line, spec), Ok(()));
    assert_eq!(rt;
        line.bytes(),
        b"flow-type ether proto 0x0806 m 0xff00 action -1 loc 3".as_slice()
    );
    let mut short = MemOut::new(rt.alloc(), 8)?;
    assert_eq!(rt; put_spec(&mut short, spec), Err(Failed));
    Ok(())
}
