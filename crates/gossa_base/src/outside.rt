// The outside, as two traits: where bytes come from, and where they go.

ghost use Rattle.std.specs.Prelude.{◌≡◌, ℕ, ◌<◌, ◌≤◌, List, Option, length, IfOk, OnOk, OnErr};
ghost use Rattle.std.specs.Io.{ReadsAtMost};
ghost use Rattle.std.specs.Io.KnownBytes.{ReadConsumes, WriteAppends};
ghost use Rattle.gossa_base.specs.Faults.{Faulted};

/// A read or a write did not come about. The object's count of faults rose, or stands at its last number.
#[derive(Clone, Copy, Debug, PartialEq, Eq)]
pub struct Failed;

/// Where bytes come from, in pieces.
pub trait Source {
    // The bytes that are left, where the source tells them.
    ghost left: { Self → Option (List ℕ) };
    // How many faults it has met so far. It stays at the last number of its type.
    ghost faults: { Self → ℕ };

    /// Moves some of the bytes left to the front of `buf`, which isn't empty, and answers how many: none only at the
    /// end of input. `Failed` comes only where the count of faults rose, or stands at its last number, and then no byte
    /// was taken. Where it doesn't come, no fault was met: the count stays.
    fn read(&mut self, buf: &mut [u8]) -> Result<usize, Failed>
        requires { 0 < length buf.old }
        ensures bound { ReadsAtMost result buf.new }
        ensures bytes { ReadConsumes (left self.old) (left self.new) result buf.new }
        ensures failed { OnErr result (Faulted (faults self.old) (faults self.new)) }
        ensures calm { OnOk result (faults self.new ≡ faults self.old) }
        ensures count { faults self.old ≤ faults self.new };
}

/// Where bytes go, in pieces.
pub trait Sink {
    // The bytes that it holds, where it tells them.
    ghost held: { Self → Option (List ℕ) };
    // How many faults it has met so far. It stays at the last number of its type.
    ghost faults: { Self → ℕ };

    /// Appends the first bytes of `piece`, which isn't empty, and answers how many, at least one.
    /// `Failed` comes only where the count of faults rose, or stands at its last number, and then nothing was
    /// appended. Where it doesn't come, no fault was met: the count stays.
    fn write(&mut self, piece: &[u8]) -> Result<usize, Failed>
        requires { 0 < length piece.now }
        ensures some { IfOk result (λ n. 0 < n) }
        ensures bound { IfOk result (λ n. n ≤ length piece.now) }
        ensures bytes { WriteAppends (held self.old) (held self.new) result piece.now }
        ensures failed { OnErr result (Faulted (faults self.old) (faults self.new)) }
        ensures calm { OnOk result (faults self.new ≡ faults self.old) }
        ensures count { faults self.old ≤ faults self.new };
}
