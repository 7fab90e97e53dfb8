//! Bytes, numbers, lines and words, and lists.

use std::test::Fail;
use vnff_base::{
    Failed, LineReader, List, MemOut, first_line, first_word, hex_digit, hex_put, hex_read, is_hex,
    num_read,
};

#[test]
fn either_case(rt: HostRuntime) -> Result<(), Fail> {
    assert!(rt; is_hex(b"00aFfE"));
    assert_eq!(rt;
        hex_read(rt.alloc(), b"00aFfE")?.as_slice(),
        [0, 0xaf, 0xfe].as_slice()
    );
    Ok(())
}

#[test]
fn spells_bytes(rt: HostRuntime) -> Result<(), Fail> {
    assert_eq!(rt; hex_digit(11), b'b');
    let mut out = MemOut::new(rt.alloc(), 256)?;
    assert_eq!(rt; hex_put(&mut out, &[]), Ok(()));
    assert_eq!(rt; hex_put(&mut out, &[0x00, 0x5a, 0xf9]), Ok(()));
    assert_eq!(rt; out.bytes(), b"-005af9".as_slice());
    assert_eq!(rt; hex_put(&mut out, &[0xab; 65]), Ok(()));
    assert_eq!(rt; out.bytes().len(), 137);
    assert_eq!(rt; hex_put(&mut out, &[0xab; 65]), Err(Failed));
    Ok(())
}

#[test]
fn ends_of_the_range(rt: HostRuntime) {
    assert_eq!(rt; num_read(b"0"), Some(0));
    assert_eq!(rt; num_read(b"18446744073709551615"), Some(u64::MAX));
    assert_eq!(rt; num_read(b"18446744073709551616"), None);
    assert_eq!(rt; num_read(b"08"), None);
}

#[test]
fn lines_and_words(rt: HostRuntime) -> Result<(), Fail> {
    let text = b"# ports\r\n \t\r\nframe\t 00ff  \r\n\nselect eth\r";
    let mut reader = LineReader::new(text);
    assert_eq!(rt; reader.missing(), 6);
    let line = reader.next_line().ok_or("a line")?;
    assert_eq!(rt; line.number, 3);
    let (word, rest) = first_word(line.text).ok_or("a word")?;
    assert!(rt; word == b"frame".as_slice());
    let (word, rest) = first_word(rest).ok_or("a second word")?;
    assert!(rt; word == b"00ff".as_slice());
    assert!(rt; first_word(rest).is_none());
    let last = reader.next_line().ok_or("a last line")?;
    assert_eq!(rt; last.number, 5);
    assert!(rt; last.text == b"select eth\r".as_slice());
    assert!(rt; reader.next_line().is_none());
    let (first, _) = first_line(text).ok_or("a first line")?;
    assert!(rt; first == b"# ports".as_slice());
    Ok(())
}

#[test]
fn each_call_at_u16(rt: HostRuntime) -> Result<(), Fail> {
    let mut list: List<u16> = List::new(rt.alloc());
    assert!(rt; list.is_empty());
    list.push(7)?;
    list.push(300)?;
    assert_eq!(rt; list.len(), 2);
    assert_eq!(rt; list.at(1).copied(), Some(300));
    assert!(rt; list.at(2).is_none());
    assert_eq!(rt; list.as_slice(), [7, 300].as_slice());
    let list = List::from(list.into_vec());
    assert_eq!(rt; list.as_slice(), [7, 300].as_slice());
    Ok(())
}
