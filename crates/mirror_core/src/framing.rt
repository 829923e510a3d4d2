//! The lines round the objects of a stream (NRTM version 3).
ghost use Rattle.std.specs.Prelude.{◌≡◌};
ghost use Rattle.std.specs.Option.{option_map};
ghost use Rattle.rpsl_text.specs.Lines.{words};
ghost use Rattle.mirror_core.specs.Framing.{started, start_line, ended, end_line, begun, operation_line, percent_line, outside_line};
ghost use Rattle.mirror_core.specs.Replica.{standing, serials_of, IsKept, IsAfter};

use crate::FeedFault;
use crate::draft::{Draft, Serials, Stream};
use crate::replica::Replica;
use crate::words::{StartWords, names_another, operation_of, start_of};
use reg_entry::Act;
use rpsl_text::next_word;

impl Replica {
    fn serials(&self) -> Option<Serials>
        ensures { result ≡ option_map serials_of self.now.stream }
    {
        match &self.stream {
            Some(stream) => Some(stream.serials),
            None => None,
        }
    }

    /// A stream of this start begins.
    fn begin_stream(&mut self, start: &StartWords) -> Result<(), FeedFault>
        ensures said { IsAfter (started (standing self.old) start.now) self.old self.new result }
        ensures kept { IsKept self.old self.new }
    {
        if start.source != self.source.as_slice() {
            return Err(FeedFault::ForeignSource { place: self.place });
        }
        let want = self.serial.saturating_add(1);
        if want < start.first {
            return Err(FeedFault::Gap {
                want,
                got: start.first,
            });
        }
        if start.version != 3 || start.last < start.first || self.stream.is_some() {
            return Err(self.spelling());
        }
        self.stream = Some(Stream {
            serials: Serials {
                next: u128::from(start.first),
                last: start.last,
            },
            draft: None,
        });
        Ok(())
    }

    fn start_line(&mut self, behind: &[u8]) -> Result<(), FeedFault>
        ensures said { IsAfter (start_line (standing self.old) (words behind.now)) self.old self.new result }
        ensures kept { IsKept self.old self.new }
    {
        match start_of(behind) {
            Some(start) => self.begin_stream(&start),
            None => Err(self.spelling()),
        }
    }

    /// The stream ends, all of whose operations have been read.
    fn end_stream(&mut self) -> Result<(), FeedFault>
        ensures said { IsAfter (ended (standing self.old) self.old.stream) self.old self.new result }
        ensures kept { IsKept self.old self.new }
    {
        match self.serials() {
            Some(serials) if u128::from(serials.last) < serials.next => {
                self.stream = None;
                Ok(())
            }
            _ => Err(self.spelling()),
        }
    }

    fn end_line(&mut self, behind: &[u8]) -> Result<(), FeedFault>
        ensures said { IsAfter (end_line (standing self.old) (words behind.now)) self.old self.new result }
        ensures kept { IsKept self.old self.new }
    {
        if names_another(self.source.as_slice(), behind) {
            return Err(FeedFault::ForeignSource { place: self.place });
        }
        self.end_stream()
    }

    /// The stream's next operation begins.
    fn begin_operation(&mut self, act: Act, serial: u64) -> Result<(), FeedFault>
        ensures said { IsAfter (begun (standing self.old) (act, serial) self.old.stream) self.old self.new result }
        ensures place { self.new.place ≡ self.old.place }
    {
        match self.serials() {
            Some(serials) if u128::from(serial) == serials.next && serial <= serials.last => {
                self.stream = Some(Stream {
                    serials,
                    draft: Some(Draft::new(self.alloc, act)),
                });
                Ok(())
            }
            _ => Err(self.spelling()),
        }
    }

    fn operation_line(&mut self, line: &[u8]) -> Result<(), FeedFault>
        ensures said { IsAfter (operation_line (standing self.old) (words line.now)) self.old self.new result }
        ensures place { self.new.place ≡ self.old.place }
    {
        match operation_of(line) {
            Some((act, serial)) => self.begin_operation(act, serial),
            None => Err(self.spelling()),
        }
    }

    /// A line that begins with `%`.
    pub(crate) fn percent_line(&mut self, line: &[u8]) -> Result<(), FeedFault>
        ensures said { IsAfter (percent_line (standing self.old) line.now) self.old self.new result }
        ensures kept { IsKept self.old self.new }
    {
        let Some((first, behind)) = next_word(line) else {
            return Ok(());
        };
        if first == b"%START".as_slice() {
            return self.start_line(behind);
        }
        if first == b"%END".as_slice() {
            return self.end_line(behind);
        }
        match line {
            [b'%', b'E', b'R', b'R', b'O', b'R', ..] => {
                Err(FeedFault::Announced { place: self.place })
            }
            _ => Ok(()),
        }
    }

    /// A line outside an object.
    pub(crate) fn outside_line(&mut self, line: &[u8]) -> Result<(), FeedFault>
        ensures said { IsAfter (outside_line (standing self.old) line.now) self.old self.new result }
        ensures place { self.new.place ≡ self.old.place }
    {
        match line {
            [] => Ok(()),
            [b'%', ..] => self.percent_line(line),
            _ => self.operation_line(line),
        }
    }
}
