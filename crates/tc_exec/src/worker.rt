//! The threads of a case.
ghost use Rattle.std.specs.Prelude.{◌≡◌, ◌≤◌, ◌+◌, [], IsTrue, IsFalse, IfSome, length};
ghost use Rattle.std.specs.Vec.{vec_len, vec_capacity};
ghost use Rattle.tc_exec.specs.{Gates.IsPassed, Gates.IsStopped, Inside.AreAbove, Inside.GathersMore, Inside.KeepsFirst, Inside.jobs_of, Inside.runs_of, Inside.IsWorked};

use crate::callable::Callable;
use crate::gate::Gate;
use crate::gathered::Gathered;
use crate::handed::{Handed, work};
use std::snapshot::Snapshot;
use std::sync::Wait;
use std::thread::{Builder, Promise, PromisedHandle, Threads};
use tc_book::Ticket;
use tc_verdict::Run;

/// The stack of a worker, in bytes. Address space is kept for it when the worker is made, and memory is taken as it is used.
pub const WORKER_STACK: usize = 2 * 1024 * 1024;

/// What a worker promises: to hand back what its behaviour made of its run.
#[derive(Drop)]
pub(crate) struct Task<B: Callable> {
    run: Run,
    behaviour: Snapshot<B>,
}

impl<B: Callable> Promise<Handed> for Task<B> {
    ghost kept_by = { λ t h. IsWorked t.run (B.outcome t.behaviour.value) h };
}

/// A worker. It is no `Drop`: its holder joins it.
pub(crate) struct Worker<B: Callable> {
    handle: PromisedHandle<Handed, Task<B>>,
}

impl<B: Callable> Worker<B> {
    /// Waits until the worker has ended; what it hands back.
    fn join<R: Threads>(self, rt: &R) -> Handed
        ensures { IsWorked self.handle.promise.run (B.outcome self.handle.promise.behaviour.value) result }
    {
        let Worker { handle } = self;
        handle.join(rt)
    }
}

/// The worker of a ticket; none if its thread could not be made.
fn worker_of<R: Threads + Wait + Copy + Send + 'static, B: Callable>(
    rt: &R,
    ticket: Ticket,
    behaviour: B,
) -> Option<Worker<B>>
    ensures run { IfSome result (λ w. w.handle.promise.run ≡ ticket) }
    ensures behaviour { IfSome result (λ w. w.handle.promise.behaviour.value ≡ behaviour) }
{
    let rt = *rt;
    let task = Task {
        run: ticket.run(),
        behaviour: Snapshot::of(&behaviour),
    };
    let builder = Builder::new().stack_size(WORKER_STACK);
    match builder.spawn_with(&rt, task, move || work(&rt, behaviour, ticket)) {
        Ok(handle) => Some(Worker { handle }),
        Err(_) => None,
    }
}

/// Makes the worker of each ticket, in their order, and says whether all were made.
pub(crate) fn make_workers<R: Threads + Wait + Copy + Send + 'static, B: Callable, G: Gate>(
    rt: &R,
    gate: &mut G,
    tickets: Vec<Ticket>,
    behaviours: Vec<B>,
    workers: &mut Vec<Worker<B>>,
) -> bool
    requires empty { workers.old.items ≡ [] }
    requires room { vec_len tickets ≤ vec_capacity workers.old }
    requires pairs { vec_len tickets ≡ vec_len behaviours }
    requires numbered { AreAbove tickets.items }
    ensures most { vec_len workers.new ≤ vec_len tickets }
    ensures all { IsTrue result → vec_len workers.new ≡ vec_len tickets }
    ensures runs { IsTrue result → runs_of workers.new.items ≡ tickets.items }
    ensures behaviours { IsTrue result → jobs_of workers.new.items ≡ behaviours.items }
    ensures none { vec_len tickets ≡ 0 → IsTrue result }
    ensures asked { IsTrue result → IsPassed G.asks (length tickets.items) gate.old gate.new }
    ensures stopped { IsFalse result → IsStopped G.asks (length tickets.items) gate.old gate.new }
{
    let mut tickets = tickets.into_iter();
    for behaviour in behaviours {
        let Some(ticket) = tickets.next() else {
            return false;
        };
        if !gate.allow(ticket.run()) {
            return false;
        }
        let Some(worker) = worker_of(rt, ticket, behaviour) else {
            return false;
        };
        workers.push_reserved(worker);
    }
    true
}

/// Joins all workers, and takes what they hand back.
pub(crate) fn join_workers<R: Threads, B: Callable>(
    rt: &R,
    workers: Vec<Worker<B>>,
    gathered: &mut Gathered,
)
    requires room { vec_len gathered.old.lefts + vec_len workers ≤ vec_capacity gathered.old.lefts }
    ensures all { vec_len gathered.new.lefts ≡ vec_len gathered.old.lefts + vec_len workers }
    ensures lefts { GathersMore B.outcome (runs_of workers.items) (jobs_of workers.items) gathered.old gathered.new }
    ensures first { KeepsFirst gathered.old.lefts.items gathered.new.lefts.items }
{
    let mut rest = workers.into_iter();
    while let Some(worker) = rest.next() {
        gathered.take(worker.join(rt));
    }
    rest.destroy_empty();
}
