//! Links that are made of a source and a sink.
ghost use Rattle.std.specs.Prelude.{◌≡◌, ◌+◌};

use crate::failed::Failed;
use crate::failing_sink::FailingSink;
use crate::failing_source::FailingSource;
use crate::link::Link;
use crate::mem_sink::MemSink;
use crate::mem_source::MemSource;
use crate::sink::Sink;
use crate::source::Source;

/// A source and a sink as the two ends of one connection. Its faults are those of both.
#[derive(Drop)]
pub struct Joined<S: Source + Drop, K: Sink + Drop> {
    pub source: S,
    pub sink: K,
}

/// A connection in memory, of which the bytes that come are given. Only memory can fail.
pub type MemLink<'a> = Joined<MemSource<'a>, MemSink>;

/// A connection in memory of which chosen reads and chosen writes fail.
pub type FailingLink<'a> = Joined<FailingSource<'a>, FailingSink<'a>>;

impl<S: Source + Drop, K: Sink + Drop> Source for Joined<S, K> {
    ghost use Rattle.std.specs.Prelude.{◌≡◌, ◌+◌};

    ghost taken = { λ l. S.taken l.source };

    ghost left = { λ l. S.left l.source };

    ghost budget = { λ l. S.budget l.source };

    ghost has_ended = { λ l. S.has_ended l.source };

    ghost faults = { λ l. S.faults l.source + K.faults l.sink };

    ghost read_keeps = { λ old new. new.sink ≡ old.sink };

    ghost nothing_left = { λ l ended. S.nothing_left l.source ended };

    fn read(&mut self, buf: &mut [u8]) -> Result<usize, Failed> {
        self.source.read(buf)
    }
}

impl<S: Source + Drop, K: Sink + Drop> Sink for Joined<S, K> {
    ghost use Rattle.std.specs.Prelude.{◌≡◌, ◌+◌};

    ghost written = { λ l. K.written l.sink };

    ghost faults = { λ l. S.faults l.source + K.faults l.sink };

    ghost write_keeps = { λ old new. new.source ≡ old.source };

    fn write(&mut self, bytes: &[u8]) -> Result<(), Failed> {
        self.sink.write(bytes)
    }
}

impl<S: Source + Drop, K: Sink + Drop> Link for Joined<S, K> {
    ghost use Rattle.std.proofs.Common.{rules};

    ghost reads_keep_written = { Prim.search rules };

    ghost writes_keep_taken = { Prim.search rules };

    ghost writes_keep_left = { Prim.search rules };

    ghost writes_keep_budget = { Prim.search rules };

    ghost writes_keep_end = { Prim.search rules };

    ghost one_count = { Prim.search rules };
}
