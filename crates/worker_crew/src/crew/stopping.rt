//! A crew stops: its jobs are taken back or collected, and its hands come back.
ghost use Rattle.std.specs.Prelude.{◌≡◌, ◌≤◌, ◌+◌, ◌++◌, [], length, IsPermutation};
ghost use Rattle.std.specs.List.{AllByRecursion};
ghost use Rattle.std.specs.VecDeque.{deque_capacity};
ghost use Rattle.place_queue.specs.Order.{AllTold};
ghost use Rattle.worker_board.specs.Moves.{LostBefore};
ghost use Rattle.worker_crew.specs.Crews.{AreOut, AreStarted, kept_by};
ghost use Rattle.worker_crew.specs.Dispatching.{jobs_in};
ghost use Rattle.worker_crew.specs.Leaving.{jobs_of, IsLeft};
ghost use Rattle.worker_crew.specs.Starting.{SameJobs};

use super::Crew;
use super::starting::retire_each;
use crate::dispatcher::Dispatcher;
use crate::hand::Hand;
use crate::leftover::Leftover;
use crate::manner::Manner;
use crate::spawner::Spawner;
use crate::workers::Finished;
use rpc_outside::Duty;
use std::collections::VecDeque;
use std::sync::Wait;

// Takes back each job that no hand has claimed.
fn take_back_each<D: Duty>(dispatcher: &mut Dispatcher<D>, left: &mut VecDeque<Finished>)
    requires none { left.old.items ≡ [] }
    requires room { length dispatcher.old.busy ≤ deque_capacity left.old }
    ensures out { IsPermutation (jobs_in dispatcher.old)
        (jobs_of left.new.items ++ jobs_in dispatcher.new) }
    ensures left { AllByRecursion (IsLeft D.answer dispatcher.new.view) left.new.items }
    ensures lost { AllByRecursion (LostBefore dispatcher.new.view) dispatcher.new.busy }
    ensures room { length left.new.items + length dispatcher.new.busy ≤ deque_capacity left.new }
    ensures board { dispatcher.new.board ≡ dispatcher.old.board }
    ensures put { dispatcher.new.put ≡ dispatcher.old.put }
    ensures hands { dispatcher.new.view.out ≡ dispatcher.old.view.out }
{
    let mut i = 0;
    while i < dispatcher.jobs() {
        match dispatcher.take_back_at(i) {
            Some(parcel) => left.push_back_reserved(Finished {
                parcel,
                worked: false,
            }),
            None => i += 1,
        }
    }
}

// Takes in the hands that are out with the spawner, and those that the crew keeps.
fn take_in_each<D: Duty + Drop, P: Spawner<Hand<D>>>(
    dispatcher: &mut Dispatcher<D>,
    manner: Manner<D>,
    spawner: &mut P,
)
    requires { AreOut dispatcher.old.board dispatcher.old.view.out
        (P.hands_out spawner.old ++ kept_by manner) }
    ensures out { dispatcher.new.view.out ≡ [] }
    ensures none { P.hands_out spawner.new ≡ [] }
    ensures jobs { SameJobs dispatcher.old dispatcher.new }
{
    while let Some(hand) = spawner.finish() {
        dispatcher.retire(hand);
    }
    match manner {
        Manner::Alone(_) => {}
        Manner::ByHands(kept) => retire_each(dispatcher, kept),
    }
}

// Collects each job that is out. Its hand has finished it, since no hand is out.
fn collect_each<D: Duty>(dispatcher: &mut Dispatcher<D>, left: &mut VecDeque<Finished>)
    requires out { dispatcher.old.view.out ≡ [] }
    requires lost { AllByRecursion (LostBefore dispatcher.old.view) dispatcher.old.busy }
    requires left { AllByRecursion (IsLeft D.answer dispatcher.old.view) left.old.items }
    requires room { length left.old.items + length dispatcher.old.busy
        ≤ deque_capacity left.old }
    ensures out { IsPermutation (jobs_of left.old.items ++ jobs_in dispatcher.old)
        (jobs_of left.new.items) }
    ensures left { AllByRecursion (IsLeft D.answer dispatcher.new.view) left.new.items }
    ensures board { dispatcher.new.board ≡ dispatcher.old.board }
    ensures put { dispatcher.new.put ≡ dispatcher.old.put }
    ensures told { dispatcher.new.told ≡ dispatcher.old.told }
    ensures hands { dispatcher.new.view.out ≡ [] }
{
    while dispatcher.jobs() > 0 {
        let Some(parcel) = dispatcher.collect_at(0) else {
            unreachable!()
        };
        left.push_back_reserved(Finished {
            parcel,
            worked: true,
        });
    }
}

impl<D: Duty + Drop, R: Wait> Crew<D, R> {
    /// Stops the crew. What no hand has claimed is taken back; the hands come back and are
    /// retired; what they worked is collected. Then the dispatcher knows all tickets that the hands
    /// took: the first of those put, each once and under its number. The spawner has out just the
    /// hands of this crew that were started. It may wait for the hands.
    pub fn stop<P: Spawner<Hand<D>>>(self, spawner: &mut P) -> Leftover<D>
    where
        R: Drop,
        requires { AreStarted self (P.hands_out spawner.old) }
        ensures none { P.hands_out spawner.new ≡ [] }
        ensures jobs { IsPermutation (jobs_in self.dispatching) (jobs_of result.jobs) }
        ensures told { AllByRecursion (IsLeft D.answer result.dispatching.view) result.jobs }
        ensures retired { result.dispatching.view.out ≡ [] }
        ensures tickets { AllTold result.dispatching.put result.dispatching.told }
        ensures put { result.dispatching.put ≡ self.dispatching.put }
        ensures board { result.dispatching.board ≡ self.dispatching.board }
    {
        let Crew {
            rt: _rt,
            dispatcher,
            manner,
            wakers,
            later: _later,
            left,
        } = self;
        let (mut dispatcher, mut jobs) = (dispatcher, left);
        wakers.close();
        take_back_each(&mut dispatcher, &mut jobs);
        take_in_each(&mut dispatcher, manner, spawner);
        dispatcher.settle();
        collect_each(&mut dispatcher, &mut jobs);
        Leftover { dispatcher, jobs }
    }
}
