//! Handlers of requests.
ghost use Rattle.std.specs.Prelude.{◌≡◌, ◌≢◌, ◌≤◌, ◌++◌, ◌∷◌, [], ℕ, List, length};
ghost use Rattle.rpc_outside.specs.declared.service.Mode.{Mode};
ghost use Rattle.rpc_outside.specs.declared.service.Mode.TheVariants.{Inline, Background, Unserved};
ghost use Rattle.rpc_outside.specs.Served.{Served, StandsForSome};

use rpc_base::MOST_MESSAGE_BYTES;

/// How the requests of a type are handled.
#[derive(Clone, Copy, Debug, PartialEq, Eq)]
pub enum Mode {
    /// In the event loop.
    Inline,
    /// By a worker.
    Background,
    /// Not at all.
    Unserved,
}

/// The handlers of an endpoint.
pub trait Service {
    // How the requests of a type are handled. It belongs to the service's type, as `answer` does.
    ghost mode_of: { ℕ → Mode };

    // What is answered to a request of a type, after the inline requests served so far.
    ghost answer: { Served → ℕ → List ℕ → List ℕ };

    // Whether the service stands for this list of served requests.
    ghost stands: { Self → Served → Type 0 };

    /// How the requests of this type are handled.
    fn mode(&self, req_type: u8) -> Mode
        ensures { result ≡ mode_of req_type };

    /// The length of the answer in bytes, at most 1,048,576. The type is served, and the request is
    /// a message, of at most 1,048,576 bytes.
    fn room(&self, req_type: u8, ask: &[u8]) -> u32
        requires served { mode_of req_type ≢ Unserved }
        requires message { length ask.now ≤ MOST_MESSAGE_BYTES }
        ensures length { (served : Served) → stands self.now served
            → length (answer served req_type ask.now) ≡ result }
        ensures most { result ≤ MOST_MESSAGE_BYTES };

    /// Fills `out`, which has the answer's length, with the answer. The type is one that is handled
    /// inline. `out` may hold the bytes of an older answer: each byte has to be written.
    fn serve(&mut self, req_type: u8, ask: &[u8], out: &mut [u8])
        requires inline { mode_of req_type ≡ Inline }
        requires stands { StandsForSome (stands self.old) }
        requires room { (served : Served) → stands self.old served
            → length (answer served req_type ask.now) ≡ length out.old }
        ensures answer { (served : Served) → stands self.old served
            → out.new ≡ answer served req_type ask.now }
        ensures next { (served : Served) → stands self.old served
            → stands self.new (served ++ (req_type, ask.now) ∷ []) };

    // A worker's answer does not depend on what was served.
    ghost steady: { (req_type : ℕ) (ask : List ℕ) (one other : Served)
        → mode_of req_type ≡ Background
        → answer one req_type ask ≡ answer other req_type ask };
}

/// A handler that a worker runs. It depends on its arguments alone.
pub trait Duty {
    // What is answered to a request of a type.
    ghost answer: { ℕ → List ℕ → List ℕ };

    /// Fills `out`, which has the answer's length, with the answer.
    fn handle(&self, req_type: u8, ask: &[u8], out: &mut [u8])
        requires room { length (answer req_type ask.now) ≡ length out.old }
        ensures answer { out.new ≡ answer req_type ask.now };
}
