// Where bytes go.
ghost use Rattle.std.specs.Prelude.{◌≡◌, ℕ, ◌≤◌, List, Option, OnOk, OnErr};
ghost use Rattle.bcj_edge.specs.Causes.{Rose, Appends, AppendsFront};

/// A sink couldn't take a piece whole.
#[derive(Debug, Drop)]
pub struct Failed;

/// Takes bytes, piece by piece.
///
/// `taken` is all that it took so far, where it tells that; `faults` counts the puts that failed, and
/// stands at the last value of a `u64`.
pub trait Sink {
    ghost taken: { Self → Option (List ℕ) };

    ghost faults: { Self → ℕ };

    /// Takes the bytes behind what it took before. On an error it took a front of them.
    fn put(&mut self, bytes: &[u8]) -> Result<(), Failed>
        ensures ok { OnOk result (Appends (taken self.old) (taken self.new) bytes.now) }
        ensures front { OnErr result (AppendsFront (taken self.old) (taken self.new) bytes.now) }
        ensures failed { OnErr result (Rose (faults self.old) (faults self.new)) }
        ensures later { faults self.old ≤ faults self.new };
}
