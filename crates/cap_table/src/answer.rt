//! What a command is answered with, and what it changes.

ghost use Rattle.std.specs.Prelude.{◌≡◌};
ghost use Rattle.cap_table.specs.Answers.{bare_reply, refused, obeyed};

use crate::capabilities::DriverCaps;
use crate::verdict::Verdict;
use admin_wire::Reply;
use arrayvec::ArrayVec;
use ff_headers::Change;

/// What an answered command changes.
#[derive(Debug, Drop)]
pub enum Effect {
    Nothing,
    /// The opcodes in use are from now on those of the bitmap.
    Use(u64),
    /// What the driver set is from now on this.
    Caps(DriverCaps),
    /// One change to the groups, classifiers and rules.
    Change(Change),
}

/// The answer to a command, whatever room there is for its reply.
#[derive(Debug, Drop)]
pub struct Answer {
    pub reply: Reply,
    pub effect: Effect,
}

impl Answer {
    /// A refusal has no result and no effect.
    pub fn refused(verdict: Verdict) -> Answer
        ensures { result ≡ refused verdict }
    {
        Answer {
            reply: bare_reply(verdict.status, verdict.qualifier),
            effect: Effect::Nothing,
        }
    }

    /// The command is obeyed: status and qualifier are 0, and the result is what it is told.
    pub fn obeyed(told: ArrayVec<u8, 264>, effect: Effect) -> Answer
        ensures { result ≡ obeyed told.items effect }
    {
        Answer {
            reply: Reply {
                status: 0,
                qualifier: 0,
                result: told,
            },
            effect,
        }
    }
}

/// A reply that has no result.
fn bare_reply(status: u16, qualifier: u16) -> Reply
    ensures { result ≡ bare_reply status qualifier }
{
    Reply {
        status,
        qualifier,
        result: ArrayVec::new(),
    }
}
