//! Resource objects in the bytes: their heads and their data.

ghost use Rattle.std.specs.Prelude.{◌≡◌, ℕ, ◌+◌, ◌≤◌, length};
ghost use Rattle.admin_wire.specs.Codes.{bare_head_size, head_size, rule_head_size, most_key_bytes, most_command_bytes};
ghost use Rattle.admin_wire.specs.Fields.{WritesFields, written};
ghost use Rattle.admin_wire.specs.LaidOut.{HasObjectBytes, HasObjectLayout};
ghost use Rattle.admin_wire.specs.Layouts.{bare_head_fields, head_fields, object_fields, rule_fields, key_bytes};
ghost use Rattle.admin_wire.specs.Objects.{head_of, bare_head_of, group_of, classifier_of, raw_key, rule_of, object_of, head_and_object};

use crate::codes::{
    GROUP_LEN, HEAD_LEN, RULE_HEAD_LEN, VIRTIO_NET_RESOURCE_OBJ_FF_CLASSIFIER,
    VIRTIO_NET_RESOURCE_OBJ_FF_GROUP, VIRTIO_NET_RESOURCE_OBJ_FF_RULE,
};
use crate::command::{CommandBytes, ObjData, ObjHead, RawKey, RawRule};
use crate::error::WireErr;
use crate::lists::{list_of, put_list};
use crate::put_field::{put_8, put_16, put_32, put_64, put_raw, put_reserved};
use arrayvec::ArrayVec;
use byte_numbers::{le16_at, le32_at, le64_at};
use ff_headers::Key;

/// The type, the id and the flags, which begin the bytes.
#[tactic(auto, unfolding(crate::specs::Objects::head_of))]
pub(crate) fn head_of(bytes: &[u8]) -> ObjHead
    requires { head_size ≤ length bytes.now }
    ensures { result ≡ head_of bytes.now }
{
    ObjHead {
        type_code: le16_at(bytes, 0),
        id: le32_at(bytes, 4),
        flags: le64_at(bytes, 8),
    }
}

/// The type and the id, which begin the bytes of a destroy. There are no flags.
#[tactic(auto, unfolding(crate::specs::Objects::bare_head_of))]
pub(crate) fn bare_head_of(bytes: &[u8]) -> ObjHead
    requires { bare_head_size ≤ length bytes.now }
    ensures { result ≡ bare_head_of bytes.now }
{
    ObjHead {
        type_code: le16_at(bytes, 0),
        id: le32_at(bytes, 4),
        flags: 0,
    }
}

/// A group: its priority.
#[tactic(auto, unfolding(crate::specs::Objects::group_of))]
fn group_of(bytes: &[u8]) -> Result<ObjData, WireErr>
    ensures { result ≡ group_of bytes.now }
{
    if bytes.len() < GROUP_LEN {
        return Err(WireErr::ShortData);
    }
    Ok(ObjData::Group(le16_at(bytes, 0)))
}

/// A classifier: a list of selectors.
#[tactic(auto, unfolding(crate::specs::Objects::classifier_of))]
fn classifier_of(bytes: &[u8]) -> Result<ObjData, WireErr>
    ensures { result ≡ classifier_of bytes.now }
{
    let list = list_of(bytes)?;
    Ok(ObjData::Classifier(list))
}

/// The key, if it isn't longer than a rule's can be.
#[tactic(auto, unfolding(crate::specs::Objects::raw_key))]
fn raw_key(bytes: &[u8]) -> RawKey
    ensures { result ≡ raw_key bytes.now }
{
    let mut key = Key::new();
    match key.try_extend_from_slice(bytes) {
        Ok(()) => RawKey::Good(key),
        Err(_) => RawKey::Odd,
    }
}

/// A rule, whose key follows its own length byte.
#[tactic(auto, unfolding(crate::specs::Objects::rule_of))]
fn rule_of(bytes: &[u8]) -> Result<ObjData, WireErr>
    ensures { result ≡ rule_of bytes.now }
{
    if bytes.len() < RULE_HEAD_LEN {
        return Err(WireErr::ShortData);
    }
    let key_len = usize::from(bytes[9]);
    let after = &bytes[RULE_HEAD_LEN..];
    if after.len() < key_len {
        return Err(WireErr::ShortData);
    }
    Ok(ObjData::Rule(RawRule {
        group: le32_at(bytes, 0),
        classifier: le32_at(bytes, 4),
        priority: bytes[8],
        action: bytes[10],
        vq: le16_at(bytes, 12),
        key: raw_key(&after[..key_len]),
    }))
}

/// The data of an object of this type, which begins the bytes.
#[tactic(auto, unfolding(crate::specs::Objects::object_of))]
fn object_of(type_code: u16, bytes: &[u8]) -> Result<ObjData, WireErr>
    ensures { result ≡ object_of type_code bytes.now }
{
    match type_code {
        VIRTIO_NET_RESOURCE_OBJ_FF_GROUP => group_of(bytes),
        VIRTIO_NET_RESOURCE_OBJ_FF_CLASSIFIER => classifier_of(bytes),
        VIRTIO_NET_RESOURCE_OBJ_FF_RULE => rule_of(bytes),
        _ => Ok(ObjData::Other),
    }
}

/// The head with its flags, and the object's data behind it.
#[tactic(auto, unfolding(crate::specs::Objects::head_and_object))]
pub(crate) fn head_and_object(bytes: &[u8]) -> Result<(ObjHead, ObjData), WireErr>
    ensures { result ≡ head_and_object bytes.now }
{
    if bytes.len() < HEAD_LEN {
        return Err(WireErr::ShortData);
    }
    let head = head_of(bytes);
    let object = object_of(head.type_code, &bytes[HEAD_LEN..])?;
    Ok((head, object))
}

/// Appends a head without its flags.
pub(crate) fn put_bare_head(bytes: &mut CommandBytes, head: &ObjHead)
    requires { length bytes.old.items + bare_head_size ≤ most_command_bytes }
    ensures { WritesFields bytes.old.items (bare_head_fields head.now) bytes.new.items }
{
    put_16(bytes, head.type_code);
    put_reserved::<2>(bytes);
    put_32(bytes, head.id);
}

/// Appends a head with its flags.
pub(crate) fn put_head(bytes: &mut CommandBytes, head: &ObjHead)
    requires { length bytes.old.items + head_size ≤ most_command_bytes }
    ensures { WritesFields bytes.old.items (head_fields head.now) bytes.new.items }
{
    put_bare_head(bytes, head);
    put_64(bytes, head.flags);
}

/// The bytes of a key. One that is odd has none of its own.
fn key_bytes(key: &RawKey) -> &[u8]
    ensures value { result.now ≡ key_bytes key.now }
    ensures fits { length result.now ≤ most_key_bytes }
{
    match key {
        RawKey::Good(key) => key.as_slice(),
        RawKey::Odd => &[],
    }
}

/// Appends a rule with its key.
fn put_rule(bytes: &mut CommandBytes, rule: &RawRule)
    requires { length bytes.old.items + rule_head_size + length (key_bytes rule.now.key) ≤ most_command_bytes }
    ensures writes { WritesFields bytes.old.items (rule_fields rule.now (key_bytes rule.now.key)) bytes.new.items }
    ensures fits { length (key_bytes rule.now.key) ≤ most_key_bytes }
{
    let key = key_bytes(&rule.key);
    put_32(bytes, rule.group);
    put_32(bytes, rule.classifier);
    put_8(bytes, rule.priority);
    put_8(bytes, key.len() as u8);
    put_8(bytes, rule.action);
    put_reserved::<1>(bytes);
    put_16(bytes, rule.vq);
    put_reserved::<2>(bytes);
    put_raw(bytes, key);
}

/// Appends the data of an object.
pub(crate) fn put_object(bytes: &mut CommandBytes, object: &ObjData)
    requires { length bytes.old.items + length (written (object_fields object.now)) ≤ most_command_bytes }
    ensures writes { WritesFields bytes.old.items (object_fields object.now) bytes.new.items }
    ensures layout { (type_code : ℕ) → HasObjectBytes type_code object.now → HasObjectLayout type_code object.now }
{
    match object {
        ObjData::Group(priority) => put_16(bytes, *priority),
        ObjData::Classifier(list) => put_list(bytes, list),
        ObjData::Rule(rule) => put_rule(bytes, rule),
        ObjData::Other => {}
    }
}

/// The bytes of an object's data, with 0 in reserved ones.
pub fn put_object_data(object: &ObjData) -> ArrayVec<u8, 264>
    requires { length (written (object_fields object.now)) ≤ most_command_bytes }
    ensures { result.items ≡ written (object_fields object.now) }
{
    let mut bytes = CommandBytes::new();
    put_object(&mut bytes, object);
    let mut told = ArrayVec::new();
    told.try_extend_from_slice(bytes.as_slice()).unwrap();
    told
}
