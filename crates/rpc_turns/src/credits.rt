//! The credits of a session.
ghost use Rattle.std.specs.Prelude.{◌≡◌, ◌≤◌, ◌<◌, ◌⊎◌, ◌↔◌, IsNone, IfSome};
ghost use Rattle.rpc_base.specs.declared.limits.TheConstants.{MOST_CREDITS};

use rpc_base::MOST_CREDITS;

/// How many packets of a session may be unanswered at a time, 1 to 256.
#[derive(Clone, Copy, Debug, PartialEq, Eq)]
pub struct Credits {
    pub count: u16,
    ghost some: { 1 ≤ count },
    ghost most: { count ≤ MOST_CREDITS },
}

impl Credits {
    /// So many credits. `None` comes exactly where they are none, or more than 256.
    pub fn new(count: u16) -> Option<Credits>
        ensures none { IsNone result ↔ ((count ≡ 0) ⊎ (MOST_CREDITS < count)) }
        ensures count { IfSome result (λ c. c.count ≡ count) }
    {
        if count == 0 || count > MOST_CREDITS {
            return None;
        }
        Some(Credits { count })
    }

    /// One credit, for one packet at a time.
    pub fn one() -> Credits
        ensures { result.count ≡ 1 }
    {
        Credits { count: 1 }
    }

    /// 32 credits, of which 32 sessions fill a ring of usual size.
    pub fn usual() -> Credits
        ensures { result.count ≡ 32 }
    {
        Credits { count: 32 }
    }
}
