//! Which snapshots lie behind a lock.
ghost use Rattle.logbook.specs.Pages.{Book as Log};
ghost use Rattle.reg_entry.specs.declared.rooms.Rooms.{Rooms as TheRooms};

use std::marker::Brand;

/// Names the snapshots behind a lock, and how much their register may keep, for contracts alone.
pub trait Naming {
    ghost book: { Log };

    ghost rooms: { TheRooms };
}

impl Naming for Brand {
    ghost book = { record { number = 0; log_name = 0; cells_name = 0 } };

    ghost rooms = { record { pieces = 0; holders = 0; subs = 0; reverse = 0; entries = 0; window = 0 } };
}
