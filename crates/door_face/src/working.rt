//! How duties are worked: each in a thread of its own, or one after another.
ghost use Rattle.std.specs.Prelude.{◌≡◌, ◌≤◌, [], true, IfOk, OnErr, map, vec_len, vec_capacity};
ghost use Rattle.std.specs.List.{AllZip, list_any};
ghost use Rattle.std.specs.Option.{ForSome};
ghost use Rattle.door_face.specs.Duties.{EndsAs, is_back};

use crate::duty::Duty;
use crate::outcome::Outcome;
use crate::spawner::Spawner;
use std::alloc::{AllocError, Global};
use std::snapshot::Snapshot;
use std::sync::Wait;
use std::thread;
use std::thread::{Promise, PromisedHandle, Scope, Threads};

// That a thread's result stands in the relation of the duty that it was begun with.
#[derive(Drop)]
struct DoneOf<W: Drop>(Snapshot<W>);

impl<W: Duty> Promise<W::Done> for DoneOf<W> {
    ghost kept_by = { λ promise done. W.done promise.0.value done };
}

// A duty that was begun, or came back.
#[derive(Drop)]
struct Begun<W: Duty> {
    thread: Option<PromisedHandle<W::Done, DoneOf<W>>>,
    duty: Snapshot<W>,
    ghost keeps: { ForSome thread (λ handle. handle.promise.0.value ≡ duty.value) },
}

fn begin<'s, E, R: Threads + Wait + Sync, W: Duty + 's>(
    scope: &Scope<'s, E>,
    rt: &'s R,
    duty: W,
) -> Begun<W>
where
    W::Done: 's,
    ensures { result.duty.value ≡ duty }
{
    let kept = Snapshot::of(&duty);
    match scope.spawn_with(DoneOf(Snapshot::of(&duty)), move || duty.work(rt)) {
        Ok(handle) => Begun {
            thread: Some(handle),
            duty: kept,
        },
        Err(_) => Begun {
            thread: None,
            duty: kept,
        },
    }
}

fn end<R: Threads, W: Duty>(rt: &R, begun: Begun<W>) -> Outcome<W::Done>
    ensures { EndsAs W.done begun.duty.value result }
{
    let Begun { thread, duty: _ } = begun;
    match thread {
        Some(handle) => Outcome::Ended(handle.join(rt)),
        None => Outcome::Back,
    }
}

fn begin_all<'s, E, R: Threads + Wait + Sync, W: Duty + 's>(
    scope: &Scope<'s, E>,
    rt: &'s R,
    room: Vec<Begun<W>>,
    duties: Vec<W>,
) -> Vec<Begun<W>>
where
    W::Done: 's,
    requires empty { room.items ≡ [] }
    requires room { vec_len duties ≤ vec_capacity room }
    ensures { map (λ begun. begun.duty.value) result.items ≡ duties.items }
{
    let mut all = room;
    for duty in duties {
        all.push_reserved(begin(scope, rt, duty));
    }
    all
}

fn end_all<R: Threads, W: Duty>(
    rt: &R,
    room: Vec<Outcome<W::Done>>,
    all: Vec<Begun<W>>,
) -> Vec<Outcome<W::Done>>
    requires empty { room.items ≡ [] }
    requires room { vec_len all ≤ vec_capacity room }
    ensures { AllZip (EndsAs W.done) (map (λ begun. begun.duty.value) all.items) result.items }
{
    let mut outcomes = room;
    for begun in all {
        outcomes.push_reserved(end(rt, begun));
    }
    outcomes
}

// Both vectors are reserved before a thread is begun: a scope that is left early waits for its threads.
fn work_in_scope<'s, E, R: Threads + Wait + Sync, W: Duty + 's>(
    scope: &Scope<'s, E>,
    rt: &'s R,
    alloc: Global,
    duties: Vec<W>,
) -> Result<Vec<Outcome<W::Done>>, AllocError>
where
    W::Done: 's,
    ensures { IfOk result (λ outcomes. AllZip (EndsAs W.done) duties.items outcomes.items) }
{
    let all = Vec::with_capacity(alloc, duties.len())?;
    let outcomes = Vec::with_capacity(alloc, duties.len())?;
    let all = begin_all(scope, rt, all, duties);
    Ok(end_all(rt, outcomes, all))
}

// Works each duty in a thread of its own.
fn work_in_threads<R: Threads + Wait + Sync, W: Duty>(
    rt: &R,
    alloc: Global,
    duties: Vec<W>,
) -> Result<Vec<Outcome<W::Done>>, AllocError>
    ensures { IfOk result (λ outcomes. AllZip (EndsAs W.done) duties.items outcomes.items) }
{
    thread::scope(
        thread::scope_env(),
        rt,
        |scope| -> Result<Vec<Outcome<W::Done>>, AllocError>
            ensures { IfOk result (λ outcomes. AllZip (EndsAs W.done) duties.items outcomes.items) }
        { work_in_scope(scope, rt, alloc, duties) },
    )
}

fn work_or_refuse<S: Spawner, R: Wait + Sync, W: Duty>(
    spawner: &mut S,
    rt: &R,
    duty: W,
) -> Outcome<W::Done>
    ensures ends { EndsAs W.done duty result }
    ensures back { is_back result ≡ true → S.can_refuse ≡ true }
    ensures faults { S.faults spawner.new ≡ S.faults spawner.old }
{
    if spawner.refuses() {
        return Outcome::Back;
    }
    Outcome::Ended(duty.work(rt))
}

// Works the duties one after another.
#[tactic(auto, using(crate::proofs::Duties::back_on))]
fn work_in_turn<S: Spawner, R: Wait + Sync, W: Duty>(
    spawner: &mut S,
    rt: &R,
    alloc: Global,
    duties: Vec<W>,
) -> Result<Vec<Outcome<W::Done>>, AllocError>
    ensures ends { IfOk result (λ outcomes. AllZip (EndsAs W.done) duties.items outcomes.items) }
    ensures back { IfOk result (λ outcomes. list_any is_back outcomes.items ≡ true → S.can_refuse ≡ true) }
    ensures faults { S.faults spawner.new ≡ S.faults spawner.old }
{
    let mut outcomes = Vec::with_capacity(alloc, duties.len())?;
    for duty in duties {
        outcomes.push_reserved(work_or_refuse(spawner, rt, duty));
    }
    Ok(outcomes)
}

// Works the duties as the spawner wants them worked.
pub(crate) fn work<S: Spawner, R: Threads + Wait + Sync, W: Duty>(
    spawner: &mut S,
    rt: &R,
    alloc: Global,
    duties: Vec<W>,
) -> Result<Vec<Outcome<W::Done>>, AllocError>
    ensures ends { IfOk result (λ outcomes. AllZip (EndsAs W.done) duties.items outcomes.items) }
    ensures back { IfOk result (λ outcomes. list_any is_back outcomes.items ≡ true → S.can_refuse ≡ true) }
    ensures faults { S.faults spawner.new ≡ S.faults spawner.old }
{
    if spawner.has_threads() {
        return work_in_threads(rt, alloc, duties);
    }
    work_in_turn(spawner, rt, alloc, duties)
}
