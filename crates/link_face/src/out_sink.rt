ghost use Rattle.std.specs.Prelude.{◌≡◌, None, OnOk, OnErr};
ghost use Rattle.std.specs.Io.KnownBytes.{Appends};
ghost use Rattle.link_face.specs.Bytes.{AppendsPrefix};
ghost use Rattle.link_face.specs.Faults.{HasCause};

use crate::failed::Failed;
use crate::sink::Sink;
use std::io::Write;
use std::marker::Model;

/// A sink over a writer of std. It tells no content, since std does not say what a failed write
/// wrote. Each write is flushed, so that who reads at the other end sees it at once.
#[derive(Drop)]
pub struct OutSink<W: Write> {
    writer: W,
    faults: u64,
}

impl<W: Write> Model for OutSink<W> {
    ghost use Rattle.link_face.specs.OutSink.{OutSinkState};

    ghost Value = { OutSinkState };

    ghost view = { λ s. record { contents = W.contents s.writer; faults = s.faults } };
}

impl<W: Write> OutSink<W> {
    /// A sink whose count of faults is 0.
    pub fn new(writer: W) -> Self
        ensures contents { result.contents ≡ W.contents writer }
        ensures faults { result.faults ≡ 0 }
    {
        Self { writer, faults: 0 }
    }

    /// How many writes failed.
    pub fn faults(&self) -> u64
        ensures { result ≡ self.now.faults }
    {
        self.faults
    }
}

impl<W: Write> Sink for OutSink<W> {
    ghost use Rattle.std.specs.Prelude.{None};

    ghost written = { λ _. None };

    ghost faults = { λ s. s.faults };

    fn write(&mut self, bytes: &[u8]) -> Result<(), Failed>
        ensures ok { OnOk result (Appends None None bytes.now) }
        ensures err { OnErr result (AppendsPrefix None None bytes.now) }
        ensures cause { HasCause self.old.faults self.new.faults result }

        // Where the writer tells what it holds, an Ok has put all the bytes there.
        ensures passed { OnOk result (Appends self.old.contents self.new.contents bytes.now) }
    {
        if self.writer.write_all(bytes).is_ok() && self.writer.flush().is_ok() {
            return Ok(());
        }
        self.faults = self.faults.saturating_add(1);
        Err(Failed)
    }
}
