//! How an idle hand sleeps and is woken. Contracts claim nothing of it but what its memory costs.
ghost use Rattle.memory_count.specs.Faults.{HasCause};

use crossbeam_utils::sync::{Parker, Unparker};
use memory_count::{Memory, NoMemory};
use std::alloc::{AllocError, Global};
use std::sync::atomic::{AtomicBool, Ordering};
use std::sync::{Arc, Wait};

/// By what one hand sleeps.
#[derive(Drop)]
pub struct Sleeper {
    parker: Parker<Global>,
    idle: Arc<AtomicBool, Global>,
    closed: Arc<AtomicBool, Global>,
}

#[derive(Drop)]
struct Waker {
    unparker: Unparker<Global>,
    idle: Arc<AtomicBool, Global>,
}

/// By what the dispatcher wakes its hands.
#[derive(Drop)]
pub struct Wakers {
    wakers: Vec<Waker>,
    closed: Arc<AtomicBool, Global>,
}

// A flag that isn't raised, for two to see.
fn flag(memory: &mut Memory) -> Result<Arc<AtomicBool, Global>, NoMemory>
    ensures cause { HasCause memory.old memory.new result }
{
    let made = Arc::new(memory.alloc(), AtomicBool::new(false)).map_err(AllocError::from);
    memory.of(made)
}

impl Wakers {
    /// For no hand yet, with room for `hands`.
    pub fn new(memory: &mut Memory, hands: u8) -> Result<Wakers, NoMemory>
        ensures cause { HasCause memory.old memory.new result }
    {
        let wakers = memory.list(hands as usize)?;
        let closed = flag(memory)?;
        Ok(Wakers { wakers, closed })
    }

    /// By what one hand more sleeps.
    pub fn sleeper(&mut self, memory: &mut Memory) -> Result<Sleeper, NoMemory>
        ensures cause { HasCause memory.old memory.new result }
    {
        let made = Parker::new(memory.alloc());
        let parker = memory.of(made)?;
        let unparker = memory.of(parker.unparker().clone())?;
        let idle = flag(memory)?;
        let closed = memory.of(Arc::try_clone(&self.closed))?;
        let seen = memory.of(Arc::try_clone(&idle))?;
        let waker = Waker {
            unparker,
            idle: seen,
        };
        memory.push(&mut self.wakers, waker)?;
        Ok(Sleeper {
            parker,
            idle,
            closed,
        })
    }

    /// Wakes one hand that sleeps, if there is one. It is called after a ticket was put.
    pub fn wake_one(&self) {
        for waker in &self.wakers {
            if waker.idle.swap(false, Ordering::SeqCst) {
                waker.unparker.unpark();
                return;
            }
        }
    }

    /// Lets each hand come back after the job that it works.
    pub fn close(&self) {
        self.closed.store(true, Ordering::SeqCst);
        for waker in &self.wakers {
            waker.unparker.unpark();
        }
    }
}

impl Sleeper {
    /// Whether the wakers were closed.
    pub(crate) fn is_closed(&self) -> bool {
        self.closed.load(Ordering::SeqCst)
    }

    /// Tells the dispatcher that this hand is about to sleep, or that it isn't.
    pub(crate) fn tell_idle(&self, idle: bool) {
        self.idle.store(idle, Ordering::SeqCst);
    }

    /// Sleeps until it is woken. Where it was woken since the last sleep, it returns at once.
    pub(crate) fn sleep<R: Wait>(&self, rt: &R) {
        self.parker.park(rt);
    }
}
