//! A client and a server, step by step.
use crate::bench::Bench;
use crate::differs::Differs;
use crate::makers::Plain;
use crate::step::Joint;
use endpoint_loop::Delivery;
use rpc_outside::Service;
use worker_crew::Workers;

// Delivers the datagram that a node sent as number `n`, from 0 on, to the other, where there has to
// be room for it.
fn carry<V: Service, W: Workers, X: Service, Y: Workers>(
    from: &Bench<V, W>,
    n: u32,
    to: &mut Bench<X, Y>,
) -> Result<(), Differs> {
    let Some((_to, bytes)) = from.link.sent(n) else {
        return Err(Differs::Sent);
    };
    to.expect_delivery(bytes, Delivery::Ring)
}

fn take<V: Service, W: Workers>(
    client: &mut Plain,
    server: &mut Bench<V, W>,
    step: &Joint,
) -> Result<(), Differs> {
    match step {
        Joint::Client(step) => client.take(step),
        Joint::Server(step) => server.take(step),
        Joint::Over(n) => carry(client, *n, server),
        Joint::Back(n) => carry(server, *n, client),
    }
}

/// Takes these steps of a plain client and this server, one after another.
pub fn take_both<V: Service, W: Workers>(
    client: &mut Plain,
    server: &mut Bench<V, W>,
    steps: &[Joint],
) -> Result<(), Differs> {
    for step in steps {
        take(client, server, step)?;
    }
    Ok(())
}
