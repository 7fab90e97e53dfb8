//! Published tables: what two workers read while changes are put.

ghost use Rattle.std.specs.Prelude.{◌≡◌, false, IfOk};
ghost use Rattle.ff_headers.specs.Changes.{is_close};

use crate::limits::LIMITS;
use ff_headers::{Action, Change, Headers, Key, Kind, RuleAction, RuleObj, Selector, Selectors};
use snapshots::{AdminEnd, Closed, HeldDoor, PairDoor, Seen, Told, Worker, open};
use std::alloc::{AllocError, Global};
use std::process::Abort;
use std::sync::Wait;
use std::test::Fail;

/// A frame of type 0x0800.
const FRAME: [u8; 14] = [255, 255, 255, 255, 255, 255, 2, 0, 0, 0, 0, 1, 8, 0];

const NOTHING: Seen = Seen {
    after: 0,
    action: Action::Default,
    rule: None,
};

/// What the rule gives, after so many changes.
fn queued(after: u64) -> Seen {
    Seen {
        after,
        action: Action::Queue(1),
        rule: Some(9),
    }
}

/// A worker can go to another thread.
fn may_be_sent<T: Send>(_worker: &T) {}

/// A classifier that compares the Ethernet type.
fn ethernet_type() -> Option<Selectors> {
    let mask = [0, 0, 0, 0, 0, 0, 0, 0, 0, 0, 0, 0, 255, 255];
    Selectors::of(&[Selector::new(Kind::Eth, 0, &mask)]).ok()
}

/// Frames of type 0x0800 go to the queue of index 2.
fn rule() -> Option<RuleObj> {
    let mut key = Key::new();
    key.try_extend_from_slice(&[0, 0, 0, 0, 0, 0, 0, 0, 0, 0, 0, 0, 8, 0])
        .ok()?;
    Some(RuleObj::new(1, 7, 0, RuleAction::Queue, 2, key))
}

/// Tables for two workers.
fn two_workers<R: Wait>(
    rt: &R,
    alloc: Global,
) -> Result<(AdminEnd, Worker<PairDoor>, Worker<PairDoor>), Fail>
    ensures first { IfOk result (λ t. t.1.identity ≡ t.0.identity) }
    ensures second { IfOk result (λ t. t.2.identity ≡ t.0.identity) }
{
    let (end, mut workers) = open(rt, alloc, &LIMITS, 2)?;
    let second = workers.pop().unwrap();
    let first = workers.pop().unwrap();
    Ok((end, first, second))
}

fn put<R: Wait + Abort>(rt: &R, end: &mut AdminEnd, change: Change) -> Told
    requires { is_close change ≡ false }
    ensures told { result.identity ≡ end.new.identity }
    ensures same { end.new.identity ≡ end.old.identity }
{
    match end.put(rt, change) {
        Ok(told) => told,
        Err(_refused) => panic!(rt; "memory"),
    }
}

#[test]
fn workers_read_what_is_put(rt: HostRuntime) -> Result<(), Fail> {
    let selectors = ethernet_type().ok_or("shape")?;
    let queue = rule().ok_or("key")?;
    let headers = Headers::parse(&FRAME);
    let (mut end, mut first, mut second) = two_workers(&rt, rt.alloc())?;
    may_be_sent(&first);
    assert_eq!(rt; first.classify(&headers), Some(NOTHING));
    let _one = put(&rt, &mut end, Change::PutGroup(1, 5));
    let _two = put(&rt, &mut end, Change::PutClassifier(7, selectors));
    let three = put(&rt, &mut end, Change::PutRule(9, queue));
    first.learn(three);
    assert_eq!(rt; first.classify(&headers), Some(queued(3)));
    let untold = second.classify(&headers).unwrap_or(NOTHING);
    assert!(rt; untold.after <= 3);
    assert_eq!(rt; untold.rule.is_some(), untold.after == 3);
    first.learn(put(&rt, &mut end, Change::DropRule(99)));
    assert_eq!(rt; first.classify(&headers), Some(queued(4)));
    second.learn(end.tell());
    let closed = close(&rt, end, &mut second, &headers);
    let done = logs_and_waits(&rt, rt.alloc(), second.into_door(), &headers);
    closed.end(&rt);
    Ok(done?)
}

/// The last change; the worker reads it.
fn close<R: Wait + Abort>(
    rt: &R,
    end: AdminEnd,
    worker: &mut Worker<PairDoor>,
    headers: &Headers,
) -> Closed
    requires { worker.old.identity ≡ end.identity }
{
    match end.close(rt) {
        Ok((mut closed, told)) => {
            worker.learn(told);
            assert_eq!(rt; worker.classify(headers), Some(queued(4)));
            worker.learn(closed.tell());
            assert_eq!(rt; worker.classify(headers), Some(queued(4)));
            closed
        }
        Err((end, _error)) => {
            end.end(rt);
            panic!(rt; "memory")
        }
    }
}

/// A log of one read, and a door that is held shut once.
fn logs_and_waits<R: Wait + Abort>(
    rt: &R,
    alloc: Global,
    door: PairDoor,
    headers: &Headers,
) -> Result<(), AllocError> {
    let mut worker = Worker::new(door);
    worker.keep(alloc, 1)?;
    assert_eq!(rt; worker.classify(headers), Some(queued(4)));
    assert_eq!(rt; worker.classify(headers), Some(queued(4)));
    assert_eq!(rt; worker.log().len(), 1);
    assert_eq!(rt; worker.log().first(), Some(&queued(4)));
    let mut held = Worker::new(HeldDoor::new(worker.into_door(), 1));
    assert_eq!(rt; held.classify(headers), None);
    assert_eq!(rt; held.classify(headers), Some(queued(4)));
    Ok(())
}
