ghost use Rattle.std.specs.Prelude.{◌≡◌};
ghost use Rattle.delegated_ext.specs.StatisticsAnswer.{statistics_answer};

use crate::write_stats;
use board::{Answer, Board, Lens, Media};
use reg_entry::Name;
use std::alloc::{AllocError, Global};

/// Asks for the statistics file under the registry's name.
#[derive(Clone, Copy)]
pub struct StatsLens {
    pub registry: Name,
}

impl Lens for StatsLens {
    ghost answers = { λ lens board answer. answer ≡ statistics_answer board.register lens.registry };

    fn read(&self, alloc: Global, board: &Board) -> Result<Answer, AllocError> {
        Ok(Answer {
            status: 200,
            media: Media::Plain,
            body: write_stats(alloc, board, &self.registry)?,
            entries: board.entries(),
        })
    }
}
