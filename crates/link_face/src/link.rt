ghost use Rattle.std.specs.Prelude.{◌≡◌};

use crate::sink::Sink;
use crate::source::Source;

/// Both ends of one connection: what the other side sends is read, and what is written goes to it.
///
/// What is read and what is written don't mix, and the faults of reads and writes are counted as
/// one.
pub trait Link: Source + Sink {
    // a read writes nothing
    ghost reads_keep_written: { (x y : Self) → Self.read_keeps x y → Self.written y ≡ Self.written x };

    // a write reads nothing
    ghost writes_keep_taken: { (x y : Self) → Self.write_keeps x y → Self.taken y ≡ Self.taken x };

    ghost writes_keep_left: { (x y : Self) → Self.write_keeps x y → Self.left y ≡ Self.left x };

    ghost writes_keep_budget: { (x y : Self) → Self.write_keeps x y → Self.budget y ≡ Self.budget x };

    ghost writes_keep_end: { (x y : Self) → Self.write_keeps x y → Self.has_ended x → Self.has_ended y };

    // the count that a failed read raises is the one that a failed write raises
    ghost one_count: { (x : Self) → Self.Sink.faults x ≡ Self.Source.faults x };
}
