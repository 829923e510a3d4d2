use reg_entry::{Name, Reply, Request};

/// What may happen to a register and those who read it.
#[derive(Clone, Copy)]
pub enum Event {
    /// A hostmaster asks for a change, on a day of the clock.
    Submit {
        day: u32,
        who: Name,
        request: Request,
    },
    /// All entries so far are published.
    Publish,
    /// A pass looks at what is published.
    Look {
        pass: u32,
    },
    /// A pass is told what is published.
    Tell {
        pass: u32,
    },
    /// A mirror is fed the published operations, up to a serial at most.
    Pull {
        mirror: u32,
        upto: u64,
    },
}

/// The answer to an event.
#[derive(Clone, Copy)]
pub enum Said {
    /// What became of a submitted request.
    Decided(Reply),
    /// How many entries are published, or how many of them the pass has seen, or the mirror's serial.
    Count(u64),
}
