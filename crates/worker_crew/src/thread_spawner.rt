//! Hands on threads of their own.
ghost use Rattle.std.specs.Prelude.{◌≡◌, [], map};
ghost use Rattle.std.specs.Result.{ForErr, ForOk};
ghost use Rattle.memory_count.specs.Faults.{HasRisen};
ghost use Rattle.worker_crew.specs.Hands.{name_of};
ghost use Rattle.worker_crew.specs.Launching.{child_name, Launched};
ghost use Rattle.worker_crew.specs.Spawning.{Started, CameBack};

use crate::hand::Hand;
use crate::spawner::Spawner;
use rpc_outside::{Duty, PlainDuty};
use std::alloc::Global;
use std::snapshot::Snapshot;
use std::sync::atomic::{AtomicBool, Ordering};
use std::sync::{Arc, Wait};
use std::thread;
use std::thread::{Promise, PromisedHandle, Threads};

/// That a hand which comes back is the one that went.
#[derive(Drop)]
pub struct SameHand<D: Duty>(Snapshot<Hand<D>>);

impl<D: Duty> Promise<Hand<D>> for SameHand<D> {
    ghost kept_by = { λ p h. name_of h ≡ name_of p.0.value };
}

// Works until the queue is closed, unless it is to come back at once.
fn work<D: Duty, R: Wait + Drop>(rt: R, hand: Hand<D>, refused: Arc<AtomicBool, Global>) -> Hand<D>
    ensures { name_of result ≡ name_of hand }
{
    let mut hand = hand;
    if !refused.load(Ordering::SeqCst) {
        hand.work(&rt);
    }
    hand
}

/// Starts a hand on a thread of its own. Where there is no thread or no memory for one, the hand
/// comes back.
pub fn launch<D: Duty + Drop + Send + Sync + 'static, R: Threads + Wait + Copy + Send + 'static>(
    rt: R,
    alloc: Global,
    hand: Hand<D>,
) -> Result<PromisedHandle<Hand<D>, SameHand<D>>, Hand<D>>
    ensures { Launched (name_of hand) result }
{
    let Ok(refused) = Arc::new(alloc, AtomicBool::new(false)) else {
        return Err(hand);
    };
    let Ok(seen) = Arc::try_clone(&refused) else {
        return Err(hand);
    };
    let promise = SameHand(Snapshot::of(&hand));
    let job = move || -> Hand<D>
        ensures { name_of result ≡ name_of hand }
    { work(rt, hand, seen) };
    match thread::spawn_with(&rt, promise, job) {
        Ok(child) => Ok(child),
        Err(back) => {
            refused.store(true, Ordering::SeqCst);
            Err((back.value)())
        }
    }
}

/// A thread that a hand of the plain duty is on.
pub type Child = PromisedHandle<Hand<PlainDuty>, SameHand<PlainDuty>>;

/// Starts a hand of the plain duty, or hands it back: `launch`, with the runtime that only a
/// program or a test has.
pub type Launcher = Box<dyn Fn(Hand<PlainDuty>) -> Result<Child, Hand<PlainDuty>>>;

/// Starts each hand on a thread of its own, and joins it. A trait's method can't start a thread for
/// a handle of a type that it doesn't know, so the launcher comes from the caller.
#[derive(Drop)]
pub struct ThreadSpawner<R: Threads> {
    rt: R,
    launcher: Launcher,
    children: Vec<Child>,
    refused: u64,
    ghost ready: { Launcher.IsAlwaysCallable launcher },
    ghost started: { (h : _) (r : _) → Launcher.post launcher h r
        → ForOk r (λ c. child_name c ≡ name_of h) },
    ghost back: { (h : _) (r : _) → Launcher.post launcher h r
        → ForErr r (λ g. name_of g ≡ name_of h) },
}

fn call(launcher: &Launcher, hand: Hand<PlainDuty>) -> Result<Child, Hand<PlainDuty>>
    requires { Launcher.IsAlwaysCallable launcher.now }
    ensures { Launcher.post launcher.now hand result }
{
    launcher(hand)
}

impl<R: Threads> ThreadSpawner<R> {
    /// No hand is out, and none was refused.
    pub fn new(rt: R, alloc: Global, launcher: Launcher) -> ThreadSpawner<R>
        requires ready { Launcher.IsAlwaysCallable launcher }
        requires started { (h : _) (r : _) → Launcher.post launcher h r
            → ForOk r (λ c. child_name c ≡ name_of h) }
        requires back { (h : _) (r : _) → Launcher.post launcher h r
            → ForErr r (λ g. name_of g ≡ name_of h) }
        ensures refused { result.refused ≡ 0 }
        ensures none { result.children.items ≡ [] }
    {
        ThreadSpawner {
            rt,
            launcher,
            children: Vec::new(alloc),
            refused: 0,
        }
    }

    /// How many hands were handed back.
    pub fn refused(&self) -> u64
        ensures { result ≡ self.now.refused }
    {
        self.refused
    }

    // A hand that is handed back is counted.
    fn refuse(&mut self, hand: Hand<PlainDuty>) -> Result<(), Hand<PlainDuty>>
        ensures counted { HasRisen self.old.refused self.new.refused }
        ensures handed_back { result ≡ Err hand }
        ensures out { self.new.children ≡ self.old.children }
    {
        self.refused = self.refused.saturating_add(1);
        Err(hand)
    }
}

impl<R: Threads> Spawner<Hand<PlainDuty>> for ThreadSpawner<R> {
    ghost refused = { λ s. s.refused };

    ghost hands_out = { λ s. map child_name s.children.items };

    fn start(&mut self, hand: Hand<PlainDuty>) -> Result<(), Hand<PlainDuty>>
        ensures { Started name_of (name_of hand) self.old.refused self.new.refused
            (map child_name self.old.children.items) (map child_name self.new.children.items)
            result }
    {
        if self.children.try_reserve(1).is_err() {
            return self.refuse(hand);
        }
        match call(&self.launcher, hand) {
            Ok(child) => {
                self.children.push_reserved(child);
                Ok(())
            }
            Err(hand) => self.refuse(hand),
        }
    }

    fn finish(&mut self) -> Option<Hand<PlainDuty>>
        ensures { CameBack name_of self.old.refused self.new.refused
            (map child_name self.old.children.items) (map child_name self.new.children.items)
            result }
    {
        let child = self.children.pop()?;
        Some(child.join(&self.rt))
    }
}
