//! Lists of selectors in the bytes.

ghost use Rattle.std.specs.Prelude.{◌≡◌, ◌+◌, ◌≤◌, length, flat_map, IfOk, All};
ghost use Rattle.admin_wire.specs.Codes.{entry_head_size, most_command_bytes};
ghost use Rattle.admin_wire.specs.Fields.{WritesFields, written};
ghost use Rattle.admin_wire.specs.LaidOut.{IsKnownList, IsGoodList};
ghost use Rattle.admin_wire.specs.Layouts.{selector_fields, list_fields};
ghost use Rattle.ff_headers.specs.SelectorParts.{IsWhole};
ghost use Rattle.admin_wire.specs.Lists.{entry_len, whole_entry, selector_of, with_entry, list_of};

use crate::codes::{ENTRY_HEAD_LEN, LIST_HEAD_LEN};
use crate::command::{CommandBytes, RawList};
use crate::error::WireErr;
use crate::put_field::{put_8, put_raw, put_reserved};
use arrayvec::ArrayVec;
use ff_headers::{Kind, Selector};

/// How many bytes the entry at the front takes.
#[tactic(auto, unfolding(crate::specs::Lists::whole_entry))]
fn entry_len(bytes: &[u8]) -> Result<usize, WireErr>
    ensures len { result ≡ whole_entry bytes.now }
    ensures fits { IfOk result (λ len. len ≤ length bytes.now) }
    ensures whole { IfOk result (λ len. len ≡ entry_len bytes.now) }
{
    if bytes.len() < ENTRY_HEAD_LEN {
        return Err(WireErr::ShortData);
    }
    let len = ENTRY_HEAD_LEN + usize::from(bytes[4]);
    if bytes.len() < len {
        return Err(WireErr::ShortData);
    }
    Ok(len)
}

/// The selector of an entry, if its type is known and its mask has the size of the type's header.
#[tactic(auto, unfolding(crate::specs::Lists::selector_of))]
fn selector_of(entry: &[u8]) -> Option<Selector>
    requires { length entry.now ≡ entry_len entry.now }
    ensures { result ≡ selector_of entry.now }
{
    let kind = Kind::of_code(entry[0])?;
    if usize::from(entry[4]) != kind.size() {
        return None;
    }
    Some(Selector::new(kind, entry[1], &entry[ENTRY_HEAD_LEN..]))
}

/// The list with one more entry at its end.
#[tactic(auto, unfolding(crate::specs::Lists::with_entry))]
fn with_entry(list: RawList, entry: &[u8]) -> RawList
    requires { length entry.now ≡ entry_len entry.now }
    ensures { result ≡ with_entry list entry.now }
{
    let RawList::Good(mut selectors) = list else {
        return RawList::Odd;
    };
    let Some(selector) = selector_of(entry) else {
        return RawList::Odd;
    };
    if selectors.is_full() {
        return RawList::Odd;
    }
    selectors.push(selector);
    RawList::Good(selectors)
}

/// The list that begins the bytes. A list that is cut is cut also where it would be odd.
#[tactic(auto, unfolding(crate::specs::Lists::list_of))]
pub(crate) fn list_of(bytes: &[u8]) -> Result<RawList, WireErr>
    ensures { result ≡ list_of bytes.now }
{
    if bytes.len() < LIST_HEAD_LEN {
        return Err(WireErr::ShortData);
    }
    let mut list = RawList::Good(ArrayVec::new());
    let mut rest = &bytes[LIST_HEAD_LEN..];
    let count = bytes[0];
    'entries: for _ in 0..count {
        let len = entry_len(rest)?;
        let (entry, after) = rest.split_at(len);
        list = with_entry(list, entry);
        rest = after;
    }
    Ok(list)
}

/// Appends an entry.
fn put_selector(bytes: &mut CommandBytes, selector: &Selector)
    requires { length bytes.old.items + entry_head_size + length selector.now.mask ≤ most_command_bytes }
    ensures writes { WritesFields bytes.old.items (selector_fields selector.now) bytes.new.items }
    ensures whole { IsWhole selector.now }
{
    let mask = selector.mask();
    put_8(bytes, selector.kind().code());
    put_8(bytes, selector.flags());
    put_reserved::<2>(bytes);
    put_8(bytes, mask.len() as u8);
    put_reserved::<3>(bytes);
    put_raw(bytes, mask);
}

/// Appends the entries of a list.
fn put_entries(bytes: &mut CommandBytes, selectors: &[Selector])
    requires { length bytes.old.items + length (written (flat_map selector_fields selectors.now)) ≤ most_command_bytes }
    ensures writes { WritesFields bytes.old.items (flat_map selector_fields selectors.now) bytes.new.items }
    ensures whole { All IsWhole selectors.now }
{
    for selector in selectors {
        put_selector(bytes, selector);
    }
}

/// Appends a list. One that is odd has no bytes of its own.
pub(crate) fn put_list(bytes: &mut CommandBytes, list: &RawList)
    requires { length bytes.old.items + length (written (list_fields list.now)) ≤ most_command_bytes }
    ensures writes { WritesFields bytes.old.items (list_fields list.now) bytes.new.items }
    ensures good { IsKnownList list.now → IsGoodList list.now }
{
    if let RawList::Good(selectors) = list {
        put_8(bytes, selectors.len() as u8);
        put_reserved::<7>(bytes);
        put_entries(bytes, selectors.as_slice());
    }
}
