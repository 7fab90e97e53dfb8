//! The lines that a drain writes, gathered before they are put to an output.

ghost use Rattle.std.specs.Prelude.{◌≡◌};
ghost use Rattle.vnff_base.specs.Gatherings.{Gathers};
ghost use Rattle.vnff_run.specs.Drain.{chain_line, end_line, fault_number, fault_word, last_line, ring_fault_line};

use crate::drain::Last;
use crate::text::put_number;
use split_queue::{Chain, RingErr};
use vnff_base::{Failed, Gathered, Out, hex_gather};

/// Writes the line of a chain: its head, the bytes of its readable buffers, and how many bytes may be written.
pub(crate) fn put_chain_line<O: Out>(
    text: &mut Gathered,
    out: &mut O,
    chain: &Chain,
) -> Result<(), Failed>
    ensures { Gathers (O.state out.old) (O.state out.new) text.old text.new (chain_line chain.now) result }
{
    text.put(out, b"chain ")?;
    put_number(text, out, chain.head as u64)?;
    text.put(out, b" ")?;
    hex_gather(text, out, chain.readable.as_slice())?;
    text.put(out, b" ")?;
    put_number(text, out, chain.room())?;
    text.put(out, b"\n")
}

/// Writes the line behind the chains.
pub(crate) fn put_last_line<O: Out>(
    text: &mut Gathered,
    out: &mut O,
    last: Last,
) -> Result<(), Failed>
    ensures { Gathers (O.state out.old) (O.state out.new) text.old text.new (last_line last) result }
{
    match last {
        Last::Empty(index) => put_end_line(text, out, index),
        Last::Faulty(fault) => put_fault_line(text, out, fault),
    }
}

/// Writes the line of an empty ring: the index at which the next chain would stand.
fn put_end_line<O: Out>(text: &mut Gathered, out: &mut O, index: u16) -> Result<(), Failed>
    ensures { Gathers (O.state out.old) (O.state out.new) text.old text.new (end_line index) result }
{
    text.put(out, b"end ")?;
    put_number(text, out, index as u64)?;
    text.put(out, b"\n")
}

/// Writes the line of a fault of the ring: its number and its name.
fn put_fault_line<O: Out>(text: &mut Gathered, out: &mut O, fault: RingErr) -> Result<(), Failed>
    ensures { Gathers (O.state out.old) (O.state out.new) text.old text.new (ring_fault_line fault) result }
{
    text.put(out, b"refused image:")?;
    put_number(text, out, fault_number(fault) as u64)?;
    text.put(out, b" ")?;
    text.put(out, fault_word(fault))?;
    text.put(out, b"\n")
}

/// The number that a fault has.
fn fault_number(fault: RingErr) -> u16
    ensures { result ≡ fault_number fault }
{
    match fault {
        RingErr::IdxJump(number)
        | RingErr::BadHead(number)
        | RingErr::Indirect(number)
        | RingErr::Order(number)
        | RingErr::Outside(number)
        | RingErr::TooLong(number)
        | RingErr::BadNext(number)
        | RingErr::Loop(number)
        | RingErr::TooMany(number) => number,
    }
}

/// The name of a fault.
fn fault_word(fault: RingErr) -> &'static [u8]
    ensures { result.now ≡ fault_word fault }
{
    match fault {
        RingErr::IdxJump(_) => b"idxjump",
        RingErr::BadHead(_) => b"badhead",
        RingErr::Indirect(_) => b"indirect",
        RingErr::Order(_) => b"order",
        RingErr::Outside(_) => b"outside",
        RingErr::TooLong(_) => b"toolong",
        RingErr::BadNext(_) => b"badnext",
        RingErr::Loop(_) => b"loop",
        RingErr::TooMany(_) => b"toomany",
    }
}
