ghost use Rattle.std.specs.Prelude.{◌≡◌};
ghost use Rattle.reg_entry.specs.Card.{is_available, is_delegated, plain_card};

/// What may be done with the numbers of a piece, and what was.
#[derive(Clone, Copy, PartialEq, Eq)]
pub enum Status {
    /// In the pool, and free to be delegated.
    Available,
    /// Kept back by the registry.
    Reserved,
    /// Returned a short time ago.
    Quarantine,
    /// Delegated to a holder who makes sub-assignments.
    Allocated,
    /// Delegated to a holder for its own network.
    Assigned,
}

impl Status {
    pub fn is_available(self) -> bool
        ensures { result ≡ is_available self }
    {
        matches!(self, Status::Available)
    }

    /// Whether numbers of this status are a holder's.
    pub fn is_delegated(self) -> bool
        ensures { result ≡ is_delegated self }
    {
        matches!(self, Status::Allocated | Status::Assigned)
    }
}

/// What the register knows of each number of a piece: its status, the number of its holder, and days counted from
/// 1970-01-01, where 0 is no day.
#[derive(Clone, Copy, PartialEq, Eq)]
pub struct Card {
    pub status: Status,
    pub holder: Option<u32>,
    /// The day of the entry that gave the card.
    pub day: u32,
    /// The day up to which the card can't be changed.
    pub until: u32,
}

impl Card {
    /// The one card of available numbers: no holder and no days.
    pub fn plain() -> Card
        ensures { result ≡ plain_card }
    {
        Card {
            status: Status::Available,
            holder: None,
            day: 0,
            until: 0,
        }
    }
}
