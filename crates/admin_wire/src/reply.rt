//! What the device answers to a command.

ghost use Rattle.std.specs.Prelude.{◌≡◌, ◌<◌, ◌≤◌, ◌↔◌, ◌⊎◌, length, None, Some};
ghost use Rattle.admin_wire.specs.declared.reply.Reply.{Reply};
ghost use Rattle.admin_wire.specs.Codes.{reply_head_size, most_reply_bytes};
ghost use Rattle.admin_wire.specs.Replies.{whole_reply, reply_bytes, reply_spelled, IsReply};

use crate::codes::REPLY_HEAD_LEN;
use arrayvec::ArrayVec;
use byte_numbers::le16_at;

/// The bytes of a reply: 8, and then at most 264 of the result.
pub type ReplyBytes = ArrayVec<u8, 272>;

/// An answer to a command. Its status is 0 where the command was obeyed.
#[derive(Debug, Drop, PartialEq, Eq)]
pub struct Reply {
    pub status: u16,
    pub qualifier: u16,
    pub result: ArrayVec<u8, 264>,
}

/// The bytes of a reply, whatever room there is.
#[tactic(auto, unfolding(crate::specs::Replies::whole_reply))]
fn whole_reply(reply: &Reply) -> ReplyBytes
    ensures bytes { result.items ≡ whole_reply reply.now }
    ensures fits { IsReply reply.now }
{
    let mut bytes = ReplyBytes::new();
    bytes
        .try_extend_from_slice(&reply.status.to_le_bytes())
        .unwrap();
    bytes
        .try_extend_from_slice(&reply.qualifier.to_le_bytes())
        .unwrap();
    bytes.try_extend_from_slice(&[0; 4]).unwrap();
    bytes.try_extend_from_slice(&reply.result).unwrap();
    bytes
}

/// The reply's bytes, cut to the room of so many bytes. There are none where the room is below 8, the size of
/// what stands before the result.
pub fn put_reply(reply: &Reply, room: u64) -> ReplyBytes
    ensures bytes { result.items ≡ reply_bytes reply.now room }

    // One that isn't cut reads as this reply.
    ensures read_back { length (whole_reply reply.now) ≤ room → reply_spelled result.items ≡ Some reply.now }
{
    if room < REPLY_HEAD_LEN as u64 {
        return ReplyBytes::new();
    }
    let mut bytes = whole_reply(reply);
    bytes.truncate(room as usize);
    bytes
}

/// The reply that bytes are, where they are neither too few nor too many.
#[tactic(auto, unfolding(crate::specs::Replies::reply_spelled))]
fn reply_spelled(bytes: &[u8]) -> Option<Reply>
    ensures { result ≡ reply_spelled bytes.now }
{
    if bytes.len() < REPLY_HEAD_LEN {
        return None;
    }
    let mut result = ArrayVec::new();
    result.try_extend_from_slice(&bytes[REPLY_HEAD_LEN..]).ok()?;
    Some(Reply {
        status: le16_at(bytes, 0),
        qualifier: le16_at(bytes, 2),
        result,
    })
}

/// The reply that whole bytes are. There is none where they are fewer than 8, the size of what stands before the
/// result, or more than a reply has at most.
pub fn read_reply(bytes: &[u8]) -> Option<Reply>
    ensures exact { result ≡ reply_spelled bytes.now }
    ensures none { (result ≡ None) ↔ (length bytes.now < reply_head_size) ⊎ (most_reply_bytes < length bytes.now) }
    ensures whole { (reply : Reply) → IsReply reply → bytes.now ≡ whole_reply reply → result ≡ Some reply }
{
    reply_spelled(bytes)
}
