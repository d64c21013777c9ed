//! A sink over a standard stream.
ghost use Rattle.std.specs.Prelude.{◌≡◌, ◌≤◌, ◌<◌, None, ℕ, [], length, take, IfOk, OnErr, OnOk};
ghost use Rattle.std.specs.Io.KnownBytes.{Appends, Keeps};
ghost use Rattle.flip_io.specs.Counts.{raised};
ghost use Rattle.flip_io.specs.inside.Streams.{stream_of, write_faults_of};
ghost use Rattle.flip_io.specs.Taken.{Took};

use crate::{Sink, SinkFault};
use std::io::Write;

/// Writes to a stream, and counts the writes that failed or took nothing. It tells no content: what
/// a terminal or a pipe shows is for the system to say.
#[derive(Drop)]
pub struct StdSink<W: Write> {
    to: W,
    faults: u64,
}

impl<W: Write> StdSink<W> {
    /// A sink over this stream, with no fault so far.
    pub fn new(to: W) -> Self
        ensures to { stream_of result ≡ to }
        ensures faults { write_faults_of result ≡ 0 }
    {
        StdSink { to, faults: 0 }
    }
}

impl<W: Write> Sink for StdSink<W> {
    ghost told = { λ _. None };

    ghost faults = { λ s. write_faults_of s };

    fn write(&mut self, bytes: &[u8]) -> Result<usize, SinkFault>
        requires { 0 < length bytes.now }
        ensures count { IfOk result (λ n. n ≤ length bytes.now) }
        ensures some { IfOk result (λ n. 0 < n) }
        ensures took { IfOk result (λ n. Took None None (take n bytes.now)) }
        ensures none { OnErr result (Took None None []) }
        ensures counted { OnErr result
            (write_faults_of self.new ≡ raised (write_faults_of self.old)) }
        ensures uncounted { OnOk result (write_faults_of self.new ≡ write_faults_of self.old) }
        ensures later { write_faults_of self.old ≤ write_faults_of self.new }

        // What it takes goes to the stream, and nothing else does.
        ensures passed { IfOk result (λ n. Appends (W.contents (stream_of self.old))
            (W.contents (stream_of self.new)) (take n bytes.now)) }
        ensures spared { OnErr result (Keeps (W.contents (stream_of self.old))
            (W.contents (stream_of self.new))) }
    {
        if let Ok(n) = self.to.write(bytes) {
            if n > 0 {
                return Ok(n);
            }
        }
        self.faults = self.faults.saturating_add(1);
        Err(SinkFault)
    }
}
