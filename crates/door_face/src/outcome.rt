ghost use Rattle.std.specs.Prelude.{◌≡◌};
ghost use Rattle.std.specs.List.{list_any};
ghost use Rattle.door_face.specs.Duties.{is_back};

/// What became of a duty.
#[derive(Drop)]
pub enum Outcome<T> {
    /// It was worked, and this is its Done.
    Ended(T),

    /// It came back: it was never begun, and was dropped.
    Back,
}

impl<T> Outcome<T> {
    /// Whether the duty came back.
    pub fn is_back(&self) -> bool
        ensures { result ≡ is_back self.now }
    {
        matches!(self, Outcome::Back)
    }
}

// Whether a duty came back.
pub(crate) fn any_back<T>(outcomes: &[Outcome<T>]) -> bool
    ensures { result ≡ list_any is_back outcomes.now }
{
    for outcome in outcomes {
        if outcome.is_back() {
            return true;
        }
    }
    false
}
