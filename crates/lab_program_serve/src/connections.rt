//! Connections that come one after the other.

ghost use Rattle.std.specs.Prelude.{◌≡◌, ℕ, List, [], ◌∷◌, Option, None, IfOk};
ghost use Rattle.lab_program_host.specs.Sources.{GivesInOrder};

use lab_program_host::ListenFault;
use std::io::{Read, Write};

/// A client: what it sends, and what goes to it.
#[derive(Drop)]
pub struct Client<R, W> {
    /// What it sends.
    pub reader: R,
    /// What goes to it.
    pub writer: W,
}

/// Where connections come in.
pub trait Connections {
    /// What a client sends.
    type Reader: Read + Drop;

    /// What goes to a client.
    type Writer: Write + Drop;

    /// The port that clients connect to.
    ghost listens_at: { Self → ℕ };

    /// The connections that come from here on, where they are known: for each what its client
    /// sends, where that is known.
    ghost coming: { Self → Option (List (Option (List ℕ))) } = { λ _. None };

    /// The port that clients connect to.
    fn port(&self) -> u16
        ensures { result ≡ listens_at self.now };

    /// Takes the next connection, for which it waits.
    fn accept(&mut self) -> Result<Client<Self::Reader, Self::Writer>, ListenFault>
        ensures given { IfOk result (λ connection. GivesInOrder (coming self.old) (coming self.new)
            (Self.Reader.remaining connection.reader ∷ [])) };
}
