//! A reader beside its writer, once the writer is gone, and where there is none.
use crossbeam_utils::rule::Unruled;
use left_right::Absorb;
use left_right::writer::Writer;
use reader_edge::EdgeReader;
use std::alloc::AllocError;
use std::test::Fail;

/// A number that operations replace.
#[derive(Drop)]
struct Last(u64);

impl Absorb<u64> for Last {
    ghost use Rattle.std.specs.Prelude.{ℕ};

    type State = u64;

    ghost state = { λ l. l.0 };

    ghost applied = { λ n operation. operation };

    ghost never_fails = { Unit {0} };

    fn absorb_first(&mut self, operation: &u64, _other: &Last) -> Result<(), AllocError> {
        self.0 = *operation;
        Ok(())
    }
}

/// The number that is read, and how often the reader was refused by then.
fn read(edge: &mut EdgeReader<Last, (), Unruled>) -> (Option<u64>, u64) {
    let Some(reading) = edge.enter::<Unruled>() else {
        return (None, edge.refusals());
    };
    let last = reading.get().0;
    edge.leave(reading);
    (Some(last), edge.refusals())
}

#[test]
fn refusals_are_counted(rt: HostRuntime) -> Result<(), Fail> {
    let mut writer: Writer<Last, u64, (), Unruled> = Writer::new(rt.alloc(), Last(1), Last(1), 1)?;
    let mut edge = EdgeReader::new(writer.factory().reader().ok());
    let mut none = EdgeReader::new(None);
    let first = read(&mut edge);
    let appended = writer.append(2).is_ok();
    let (writer, published) = writer.publish_as::<Unruled, _>(&rt);
    let second = read(&mut edge);
    writer.take(&rt);
    let seen = [
        first,
        second,
        read(&mut edge),
        read(&mut edge),
        read(&mut none),
    ];
    let wanted = [(Some(1), 0), (Some(2), 0), (None, 1), (None, 2), (None, 1)];
    assert!(rt; appended && published.is_ok());
    assert_eq!(rt; seen, wanted);
    Ok(())
}
