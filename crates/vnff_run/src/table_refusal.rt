//! Why tables and captures are refused, and the words for it.

ghost use Rattle.std.specs.Prelude.{◌≡◌, decimal};
ghost use Rattle.vnff_base.specs.Outputs.{Writes};
ghost use Rattle.vnff_run.specs.SelectLines.{kind_word};
ghost use Rattle.vnff_run.specs.TableRefusals.{capture_reason_word, capture_words, fault_offset, limit_word, limit_words};
ghost use Rattle.vnff_run.specs.TableRefusals.{table_reason_word, unsupported_words};

use capture::CaptureErr;
use ff_headers::Kind;
use itoa::Buffer;
use vnff_base::{Failed, Out};

/// What is wrong with a line of a table.
#[derive(Clone, Copy, Debug, PartialEq, Eq)]
pub enum TableReason {
    /// A word is unknown, missing or too much.
    Word,
    /// The flow doesn't have this field.
    NotInFlow,
    /// An option stood before in the line.
    Twice,
    /// A number begins with `0` and a decimal digit.
    Octal,
    /// A word is no number, or one out of its field's range.
    Number,
    /// A word is no address.
    Address,
    /// A queue isn't below the queue pairs.
    Queue,
    /// A location is above 1023.
    Loc,
    /// No spec stands at the location that is to be removed.
    NoSuchLoc,
    /// The line gives no action.
    NoAction,
    /// The line gives no location, and none is free.
    Full,
}

/// What a table needs more of than its device has.
#[derive(Clone, Copy, Debug, PartialEq, Eq)]
pub enum TableLimit {
    /// Rules.
    Rules,
    /// Classifiers.
    Classifiers,
    /// Rule priorities, in all groups together.
    Levels,
    /// Rules that name one group, in all groups together.
    PerGroup,
}

/// Writes which part of a capture is at fault, and why.
#[tactic(auto, unfolding(crate::specs::TableRefusals::capture_words))]
pub(crate) fn put_capture_fault<O: Out>(out: &mut O, fault: CaptureErr) -> Result<(), Failed>
    ensures { Writes (O.state out.old) (O.state out.new) (capture_words fault) result }
{
    out.put(b"capture@")?;
    put_number(out, fault_offset(fault))?;
    out.put(b" ")?;
    out.put(capture_reason_word(fault))
}

/// Writes which selector a device doesn't have.
#[tactic(auto, unfolding(crate::specs::TableRefusals::unsupported_words))]
pub(crate) fn put_unsupported<O: Out>(out: &mut O, loc: u16, kind: Kind) -> Result<(), Failed>
    ensures { Writes (O.state out.old) (O.state out.new) (unsupported_words loc kind) result }
{
    out.put(b"compile unsupported ")?;
    put_number(out, u64::from(loc))?;
    out.put(b" ")?;
    out.put(header_word(kind))
}

/// Writes which limit a table is past, and by which number.
#[tactic(auto, unfolding(crate::specs::TableRefusals::limit_words))]
pub(crate) fn put_past_limit<O: Out>(
    out: &mut O,
    limit: TableLimit,
    count: u32,
) -> Result<(), Failed>
    ensures { Writes (O.state out.old) (O.state out.new) (limit_words limit count) result }
{
    out.put(b"compile ")?;
    out.put(limit_word(limit))?;
    out.put(b" ")?;
    put_number(out, u64::from(count))
}

/// Writes a number.
pub(crate) fn put_number<O: Out>(out: &mut O, number: u64) -> Result<(), Failed>
    ensures { Writes (O.state out.old) (O.state out.new) (decimal number) result }
{
    let mut buffer = Buffer::new();
    out.put(buffer.format(number).as_bytes())
}

/// What is wrong with a line of a table, in words.
pub(crate) fn table_reason_word(reason: TableReason) -> &'static [u8]
    ensures { result.now ≡ table_reason_word reason }
{
    match reason {
        TableReason::Word => b"word",
        TableReason::NotInFlow => b"not-in-flow",
        TableReason::Twice => b"twice",
        TableReason::Octal => b"octal",
        TableReason::Number => b"number",
        TableReason::Address => b"address",
        TableReason::Queue => b"queue",
        TableReason::Loc => b"loc",
        TableReason::NoSuchLoc => b"no-such-loc",
        TableReason::NoAction => b"no-action",
        TableReason::Full => b"full",
    }
}

/// The name of a limit.
fn limit_word(limit: TableLimit) -> &'static [u8]
    ensures { result.now ≡ limit_word limit }
{
    match limit {
        TableLimit::Rules => b"rules",
        TableLimit::Classifiers => b"classifiers",
        TableLimit::Levels => b"levels",
        TableLimit::PerGroup => b"per-group",
    }
}

/// Where the part of a capture stands that is at fault.
fn fault_offset(fault: CaptureErr) -> u64
    ensures { result ≡ fault_offset fault }
{
    match fault {
        CaptureErr::Truncated(offset) | CaptureErr::TooLong(offset) => offset,
        CaptureErr::Magic => 0,
        CaptureErr::Version => 4,
        CaptureErr::LinkType => 20,
    }
}

/// Why bytes are no capture, in words.
fn capture_reason_word(fault: CaptureErr) -> &'static [u8]
    ensures { result.now ≡ capture_reason_word fault }
{
    match fault {
        CaptureErr::Truncated(_) => b"truncated",
        CaptureErr::Magic => b"magic",
        CaptureErr::Version => b"version",
        CaptureErr::LinkType => b"linktype",
        CaptureErr::TooLong(_) => b"toolong",
    }
}

/// The word for a header.
pub(crate) fn header_word(kind: Kind) -> &'static [u8]
    ensures { result.now ≡ kind_word kind }
{
    match kind {
        Kind::Eth => b"eth",
        Kind::Ipv4 => b"ipv4",
        Kind::Ipv6 => b"ipv6",
        Kind::Tcp => b"tcp",
        Kind::Udp => b"udp",
    }
}
