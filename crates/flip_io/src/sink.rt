//! A place that bytes are written to, in order.
ghost use Rattle.std.specs.Prelude.{◌≡◌, ◌≤◌, ◌<◌, ℕ, List, [], Option, length, take, IfOk, OnErr};
ghost use Rattle.std.specs.Prelude.{OnOk};
ghost use Rattle.flip_io.specs.Counts.{raised};
ghost use Rattle.flip_io.specs.Taken.{Took, TookPrefix};

/// A write failed, and took no byte.
#[derive(Clone, Copy, Debug, PartialEq, Eq)]
pub struct SinkFault;

/// A place that bytes are written to, in order. It may tell contracts the bytes that it took, or
/// keep them to itself, as a terminal does. It counts the writes that failed.
pub trait Sink {
    /// The bytes taken so far, where the sink tells them.
    ghost told: { Self → Option (List ℕ) };

    /// How often writes have failed: a count of 64 bits, which stays at its last value.
    ghost faults: { Self → ℕ };

    /// Takes one or more of the first bytes, and answers how many; or takes none and answers a
    /// fault.
    fn write(&mut self, bytes: &[u8]) -> Result<usize, SinkFault>
        requires { 0 < length bytes.now }
        ensures count { IfOk result (λ n. n ≤ length bytes.now) }
        ensures some { IfOk result (λ n. 0 < n) }
        ensures took { IfOk result (λ n. Took (told self.old) (told self.new) (take n bytes.now)) }
        ensures none { OnErr result (Took (told self.old) (told self.new) []) }

        // A fault raises the count by one, and nothing else raises it. It never falls.
        ensures counted { OnErr result (faults self.new ≡ raised (faults self.old)) }
        ensures uncounted { OnOk result (faults self.new ≡ faults self.old) }
        ensures later { faults self.old ≤ faults self.new };
}

/// Writes all the bytes, in as many calls as it takes. After a fault the sink has taken a prefix of
/// them, and nothing more is tried. Takes no memory.
pub fn write_all<K: Sink>(sink: &mut K, bytes: &[u8]) -> Result<(), SinkFault>
    ensures all { OnOk result (Took (K.told sink.old) (K.told sink.new) bytes.now) }
    ensures prefix { TookPrefix (K.told sink.old) (K.told sink.new) bytes.now }
    ensures counted { OnErr result (K.faults sink.new ≡ raised (K.faults sink.old)) }
    ensures uncounted { OnOk result (K.faults sink.new ≡ K.faults sink.old) }
{
    let mut done = 0;
    while done < bytes.len() {
        done += sink.write(&bytes[done..])?;
    }
    Ok(())
}
