//! Runs over UDP.
ghost use Rattle.std.specs.Prelude.{◌≡◌, ◌≢◌, ℕ, [], IfOk};
ghost use Rattle.memory_count.specs.Faults.{HasRisenBy};
ghost use Rattle.rpc_outside.specs.declared.service.Mode.TheVariants.{Background};
ghost use Rattle.rpc_turns.specs.Lacks.{lacks};
ghost use Rattle.rpc_turns.specs.Plain.{Stands, limits_at};
ghost use Rattle.rpc_turns.specs.Queue.{KeepsAll};

use memory_count::Memory;
use rpc_base::USUAL_TIMEOUT;
use rpc_outside::{Service, SysClock};
use rpc_turns::{InlineRunning, PlainRunning, RpcError, Running};
use std::net::Net;
use std::sync::Wait;
use std::time;
use udp_link::UdpLink;

/// A run over a UDP socket whose service has no background types, and that keeps no facts.
pub type UdpRunning<'a, V, N> = InlineRunning<V, UdpLink<'a, N>, SysClock<'a, N>>;

/// A run of a new endpoint with usual limits at this numeric address, with a port, whose service
/// has no background types. It sleeps where nothing comes, and keeps no facts. `NoMemory` comes
/// only where memory was refused for the endpoint, and `Link` where the link can't take the
/// address.
pub fn udp_running<'a, V: Service + Drop, N: Net + time::Clock>(
    memory: &mut Memory,
    rt: &'a N,
    addr: &str,
    service: V,
) -> Result<UdpRunning<'a, V, N>, RpcError>
    requires inline { (req_type : ℕ) → V.mode_of req_type ≢ Background }
    requires service { V.stands service [] }
    ensures service { IfOk result (λ r. r.endpoint.service ≡ service) }
    ensures ended { IfOk result (λ r. KeepsAll r.ended []) }
    ensures cause { HasRisenBy (lacks result) memory.old memory.new }
{
    let link = UdpLink::new(memory.alloc(), rt);
    let mut node = Running::inline(memory, service, link, SysClock::new(rt))?;
    node.bind(addr)?;
    Ok(node)
}

/// A run over a UDP socket with the plain service, that keeps no facts. Its crew's calls wait by
/// the handle `H`.
pub type UdpPlain<'a, H, N> = PlainRunning<H, UdpLink<'a, N>, SysClock<'a, N>>;

/// A run of a new endpoint with the plain service and usual limits at this numeric address, with a
/// port. Its crew has no hands, and works by itself; its calls wait by the handle `waits`. It
/// sleeps where nothing comes, and keeps no facts. `NoMemory` comes only where memory was refused
/// for the endpoint, and `Link` where the link can't take the address.
pub fn udp_plain<'a, H: Wait + Drop, N: Net + time::Clock>(
    memory: &mut Memory,
    waits: H,
    rt: &'a N,
    addr: &str,
) -> Result<UdpPlain<'a, H, N>, RpcError>
    ensures stands { IfOk result (λ r. Stands (limits_at USUAL_TIMEOUT) [] r.endpoint) }
    ensures ended { IfOk result (λ r. KeepsAll r.ended []) }
    ensures cause { HasRisenBy (lacks result) memory.old memory.new }
{
    let link = UdpLink::new(memory.alloc(), rt);
    let mut node = Running::plain(memory, waits, link, SysClock::new(rt))?;
    node.bind(addr)?;
    Ok(node)
}
