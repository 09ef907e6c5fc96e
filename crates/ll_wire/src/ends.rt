//! Two devices.

ghost use Rattle.std.specs.Prelude.{◌≡◌, ◌<◌, ◌≤◌, ◌-◌, ◌^◌, false, ℕ, List, length, take, IfOk, OnErr};
ghost use Rattle.std.specs.Borrow.{GName};
ghost use Rattle.std.specs.Io.{ReadsAtMost, WritesAtMost};
ghost use Rattle.std.specs.Io.KnownBytes.{ReadConsumes, WriteAppends};
ghost use Rattle.ll_wire.specs.Devices.{Devices, Gave, GaveNone, Took, TookNone};

/// The device failed. It isn't used again.
#[derive(Clone, Copy, Debug, PartialEq, Eq)]
pub struct Broken;

/// An input and an output. Before a read no answer is due: every line feed that was read has been answered by one that
/// was written, if line feeds are answered at all.
pub trait Ends {
    /// The state of both devices.
    ghost devices: { Self → Devices };

    /// The ghost names of what the devices borrow, if anything. No call exchanges it.
    ghost names: { Self → List GName };

    /// Reads some bytes into the buffer. Returns their number, 0 at the end.
    fn read(&mut self, buf: &mut [u8]) -> Result<usize, Broken>
        requires whole { (devices self.old).is_input_broken ≡ false }
        requires answered { (devices self.old).owed ≡ 0 }
        requires room { (devices self.old).reads < 2 ^ 64 - 1 }
        ensures bound { ReadsAtMost result buf.new }
        ensures bytes { ReadConsumes (devices self.old).remaining (devices self.new).remaining result buf.new }
        ensures ok { IfOk result (λ n. Gave (devices self.old) (devices self.new) (take n buf.new)) }
        ensures err { OnErr result (GaveNone (devices self.old) (devices self.new)) }
        ensures same { names self.new ≡ names self.old };

    /// Writes some of the bytes, at least one if there are any. Returns their number.
    fn write(&mut self, bytes: &[u8]) -> Result<usize, Broken>
        requires { (devices self.old).is_output_broken ≡ false }
        ensures bound { WritesAtMost result bytes.now }
        ensures some { IfOk result (λ n. 0 < length bytes.now → 0 < n) }
        ensures bytes { WriteAppends (devices self.old).contents (devices self.new).contents result bytes.now }
        ensures ok { IfOk result (λ n. Took (devices self.old) (devices self.new) (take n bytes.now)) }
        ensures err { OnErr result (TookNone (devices self.old) (devices self.new)) }
        ensures same { names self.new ≡ names self.old };
}
