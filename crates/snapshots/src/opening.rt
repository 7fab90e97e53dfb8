//! Opening tables for a writing side and workers.

ghost use Rattle.std.specs.Prelude.{◌≡◌, ◌≤◌, ◌<◌, [], All, IfOk, IfSome, drop, length};
ghost use Rattle.left_right.specs.Sides.{view as seat_view};
ghost use Rattle.snapshots.specs.Fresh.{IsFresh, IsOpened, end_of};
ghost use Rattle.snapshots.specs.Doors.{KnowsTables};
ghost use Rattle.snapshots.specs.Seats.{copy_of};

use crate::copied::{Copied, Entry};
use crate::door::PairDoor;
use crate::ends::AdminEnd;
use crate::pen::Pen;
use crate::published::Published;
use crate::rule::{Copies, Show, Tell};
use crate::trail::Trail;
use crate::worker::Worker;
use ff_headers::Limits;
use matcher::Tables;
use std::alloc::{AllocError, Global};
use std::sync::Wait;

/// What `open` gives: the end that publishes, and the workers.
type Opened = (AdminEnd, Vec<Worker<PairDoor>>);

/// Tables with room for the limits and no change yet: the end that publishes changes, and so many workers. All the room
/// of both copies is taken here. It begins again where `left_right` refuses a reader's place, and may wait.
///
/// # Errors
///
/// Where memory runs out.
pub fn open<R: Wait>(
    rt: &R,
    alloc: Global,
    limits: &Limits,
    workers: u8,
) -> Result<(AdminEnd, Vec<Worker<PairDoor>>), AllocError>
    requires some { 1 ≤ workers }
    requires few { workers ≤ 16 }
    ensures limits { IfOk result (λ t. t.0.limits ≡ limits.now) }
    ensures list { IfOk result (λ t. t.0.list ≡ []) }
    ensures as_many { IfOk result (λ t. length t.1.items ≡ workers) }
    ensures workers { IfOk result (λ t. All (IsFresh t.0) t.1.items) }
{
    for _ in rt.forever() {
        if let Some(opened) = attempt(rt, alloc, limits, workers)? {
            return Ok(opened);
        }
    }
    unreachable!()
}

/// One try: None where a reader's place was refused.
fn attempt<R: Wait>(
    rt: &R,
    alloc: Global,
    limits: &Limits,
    workers: u8,
) -> Result<Option<Opened>, AllocError>
    requires some { 1 ≤ workers }
    requires few { workers ≤ 16 }
    ensures { IfOk result (λ o. IfSome o (λ t. IsOpened limits.now workers t.0 t.1.items)) }
{
    let pen = Pen::new();
    let first = empty_copy(alloc, limits, pen.trail())?;
    let second = empty_copy(alloc, limits, pen.trail())?;
    let copies = Copies::new(alloc, first, second, usize::from(workers))?;
    let mut copies = publish_blank(rt, copies)?;
    match seat_all(
        alloc,
        &mut copies,
        limits,
        pen.trail(),
        usize::from(workers),
    ) {
        Ok(Some(list)) => {
            let published = Published::over(copies, pen, *limits);
            Ok(Some((AdminEnd::over(published), list)))
        }
        Ok(None) => {
            drop(copies.take(rt));
            Ok(None)
        }
        Err(error) => {
            drop(copies.take(rt));
            Err(error)
        }
    }
}

/// Tables with no change, and the empty list for which they stand.
fn empty_copy(alloc: Global, limits: &Limits, first: &Trail) -> Result<Copied, AllocError>
    requires { first.now.list ≡ [] }
    ensures { IfOk result (λ copied. copied ≡ copy_of limits.now first.now) }
{
    Ok(Copied {
        tables: Tables::new(alloc, limits)?,
        trail: first.again(),
    })
}

/// Publishes one blank entry, so that the queue of entries has room from here on, and the writer's seat knows the
/// tables.
fn publish_blank<R: Wait>(rt: &R, copies: Copies) -> Result<Copies, AllocError>
    requires stands { copies.desk.shown.value
        ≡ copy_of copies.desk.shown.value.tables.limits copies.desk.shown.value.trail }
    requires waits { drop copies.behind copies.log.items ≡ [] }
    ensures { IfOk result (λ c. (drop c.behind c.log.items ≡ []) × (c.desk.shown.value ≡ copies.desk.shown.value)
        × KnowsTables copies.desk.shown.value.trail.identity copies.desk.shown.value.tables.limits
        (seat_view c.desk.place)) }
{
    let mut copies = copies;
    if let Err(_blank) = copies.append(Entry::Blank) {
        drop(copies.take(rt));
        return Err(AllocError);
    }
    let (copies, outcome) = copies.publish_as::<Show, R>(rt);
    let _ = outcome;
    Ok(copies)
}

/// So many workers, each told of the tables. None where a reader's place was refused.
fn seat_all(
    alloc: Global,
    copies: &mut Copies,
    limits: &Limits,
    first: &Trail,
    count: usize,
) -> Result<Option<Vec<Worker<PairDoor>>>, AllocError>
    requires { KnowsTables first.now.identity limits.now (seat_view copies.old.desk.place) }
    ensures shown { (copies.new.desk.shown ≡ copies.old.desk.shown) × (copies.new.log ≡ copies.old.log)
        × (copies.new.behind ≡ copies.old.behind) }
    ensures workers { IfOk result (λ o. IfSome o (λ list. (length list.items ≡ count)
        × All (IsFresh (end_of first.now limits.now)) list.items)) }
{
    let mut list = Vec::with_capacity(alloc, count)?;
    for _ in 0..count {
        let Some(worker) = seat(copies, limits, first) else {
            return Ok(None);
        };
        list.push_reserved(worker);
    }
    Ok(Some(list))
}

/// One worker, told of the tables. None where the reader's place was refused.
fn seat(copies: &mut Copies, limits: &Limits, first: &Trail) -> Option<Worker<PairDoor>>
    requires { KnowsTables first.now.identity limits.now (seat_view copies.old.desk.place) }
    ensures shown { (copies.new.desk.shown ≡ copies.old.desk.shown) × (copies.new.log ≡ copies.old.log)
        × (copies.new.behind ≡ copies.old.behind)
        × (seat_view copies.new.desk.place ≡ seat_view copies.old.desk.place) }
    ensures worker { IfSome result (IsFresh (end_of first.now limits.now)) }
{
    let mut reader = copies.factory().reader().ok()?;
    reader.learn::<Tell>(copies.tell::<Tell>());
    Some(Worker::new(PairDoor::new(reader, *limits, first.again())))
}
