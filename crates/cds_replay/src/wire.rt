//! What lies between a script's server and its replica: the wire of the replies.

ghost use Rattle.std.specs.Prelude.{◌≡◌, ℕ, List};

/// What the bytes of each reply pass through on their way from the server to the replica.
pub trait Wire {
    // What it leaves of the bytes of a reply.
    ghost carried: { Self → List ℕ → List ℕ };

    /// Changes the bytes of a reply in place, or leaves them.
    fn carry(&self, reply: &mut [u8])
        ensures { reply.new ≡ carried self.now reply.old };
}

/// The wire that leaves each reply as it is.
#[derive(Clone, Copy, Debug)]
pub struct Straight;

impl Wire for Straight {
    ghost use Rattle.std.specs.Prelude.{ℕ, List};

    ghost carried = { λ _ (bytes : List ℕ). bytes };

    fn carry(&self, reply: &mut [u8]) {
        let _ = reply;
    }
}
