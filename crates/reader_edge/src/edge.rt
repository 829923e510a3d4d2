ghost use Rattle.std.specs.Prelude.{◌≡◌, None, MatchOption};
ghost use Rattle.crossbeam_utils.specs.Register.{Turns};
ghost use Rattle.left_right.specs.Sides.{view};
ghost use Rattle.reader_edge.specs.Refusals.{raised};

use crossbeam_utils::rule::{Outcome, Protocol};
use left_right::reader::{Reader, Reading};

/// A reader under a rule, or none where none could be made, and how often it was refused: up to the greatest number of the
/// type, at which the count stays.
#[derive(Drop)]
pub struct EdgeReader<T: Drop, V, P: Protocol<T, V>> {
    reader: Option<Reader<T, V, P>>,
    refusals: u64,
}

impl<T: Drop, V, P: Protocol<T, V>> EdgeReader<T, V, P> {
    pub fn new(reader: Option<Reader<T, V, P>>) -> EdgeReader<T, V, P>
        ensures { result ≡ record { reader = reader; refusals = 0 } }
    {
        EdgeReader {
            reader,
            refusals: 0,
        }
    }

    /// How often it was refused.
    pub fn refusals(&self) -> u64
        ensures { result ≡ self.now.refusals }
    {
        self.refusals
    }

    /// Counts a refusal.
    pub fn refuse(&mut self)
        ensures refusals { self.new.refusals ≡ raised self.old.refusals }
        ensures reader { self.new.reader ≡ self.old.reader }
    {
        self.refusals = self.refusals.saturating_add(1);
    }

    /// Takes what is published, and with it what the rule tells. It is refused, and counts that, where the reader comes back,
    /// as it does once the writer is gone, or there is none.
    pub fn enter<M: Outcome<T, V>>(&mut self) -> Option<Reading<T, V, P>>
        requires { MatchOption self.old.reader (Unit {0}) (λ r. Turns P.holds r.place.id (view r.place) (λ x. x) M.then) }
        ensures refusals { MatchOption result (self.new.refusals ≡ raised self.old.refusals) (λ g. self.new.refusals ≡ self.old.refusals) }
        ensures saw { MatchOption result (Unit {0}) (λ g. MatchOption self.old.reader ⊥ (λ r. M.then (view r.place) g.part.value g.part.value (view g.place))) }
        ensures stays { MatchOption result (MatchOption self.old.reader (self.new.reader ≡ None) (λ r. MatchOption self.new.reader ⊥ (λ s. view s.place ≡ view r.place))) (λ g. self.new.reader ≡ None) }
    {
        match self.reader.take() {
            Some(reader) => match reader.enter_as::<M>() {
                Ok(reading) => Some(reading),
                Err(reader) => {
                    self.reader = Some(reader);
                    self.refuse();
                    None
                }
            },
            None => {
                self.refuse();
                None
            }
        }
    }

    /// Leaves what was read.
    pub fn leave(&mut self, reading: Reading<T, V, P>)
        requires { self.old.reader ≡ None }
        ensures refusals { self.new.refusals ≡ self.old.refusals }
        ensures view { MatchOption self.new.reader ⊥ (λ r. view r.place ≡ view reading.place) }
    {
        self.reader = Some(reading.leave());
    }
}
