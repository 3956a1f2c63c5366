//! A session comes to know its server.
ghost use Rattle.std.specs.Prelude.{◌≡◌, ◌<◌, ◌≤◌};

use super::ClientSession;
use packet_header::Life;
use rpc_base::{SESSION_NUMBERS, SessionNo};

impl ClientSession {
    /// The session is connected: from now on its number at the server is this one, which is below
    /// 65,535, and the server's life is this one, from 1 on. Its calls stay as they are.
    pub fn connected(&mut self, server: SessionNo, life: Life)
        requires server { server < SESSION_NUMBERS }
        requires alive { 1 ≤ life }
        ensures { self.new ≡ record self.old { server = server; life = life } }
    {
        self.server = server;
        self.life = life;
    }
}
