//! The numbers of one space one by one, to hold the book against.
use num_range::Space;
use piece_book::PieceBook;
use reg_entry::Status;
use std::alloc::{AllocError, Global};

/// What is known of a number: its status, where the pool has it, and whether a piece begins there.
#[derive(Clone, Copy)]
struct Cell {
    status: Option<Status>,
    begins: bool,
}

#[derive(Drop)]
pub(super) struct Numbers {
    cells: Vec<Cell>,
}

fn place(value: u128) -> usize {
    usize::try_from(value).unwrap_or(usize::MAX)
}

impl Numbers {
    pub(super) fn with_count(alloc: Global, count: usize) -> Result<Numbers, AllocError> {
        let empty = Cell {
            status: None,
            begins: false,
        };
        Ok(Numbers {
            cells: vec![in alloc; empty; count]?,
        })
    }

    fn is_available(&self, value: u128) -> bool {
        match self.cells.get(place(value)) {
            Some(cell) => cell.status == Some(Status::Available),
            None => false,
        }
    }

    /// Says whether a piece begins at the number.
    pub(super) fn mark(&mut self, value: u128, begins: bool) {
        if let Some(cell) = self.cells.get_mut(place(value)) {
            cell.begins = begins;
        }
    }

    /// A piece begins at the number, but where it and the one before it are available.
    fn settle(&mut self, value: u128) {
        let joins = value > 0 && self.is_available(value - 1) && self.is_available(value);
        self.mark(value, !joins);
    }

    pub(super) fn lay(&mut self, first: u128, last: u128, status: Status) {
        for value in place(first)..=place(last) {
            if let Some(cell) = self.cells.get_mut(value) {
                cell.status = Some(status);
                cell.begins = false;
            }
        }
        self.settle(first);
        self.settle(last.saturating_add(1));
    }

    /// Whether the numbers from the first to the last are those of one piece of the status.
    fn is_one_piece(&self, first: usize, last: usize, status: Status) -> bool {
        for value in first..=last {
            match self.cells.get(value) {
                Some(cell) if cell.status == Some(status) && cell.begins == (value == first) => {}
                _ => return false,
            }
        }
        true
    }

    /// How many pieces begin.
    fn count(&self) -> usize {
        self.cells
            .iter()
            .filter(|cell| cell.begins && cell.status.is_some())
            .count()
    }

    /// Whether the book has the same pieces.
    pub(super) fn agree(&self, book: &PieceBook) -> bool {
        for piece in book.walk(Space::Asn) {
            let (first, last) = (place(piece.range.first()), place(piece.range.last()));
            if !self.is_one_piece(first, last, piece.card.status) {
                return false;
            }
        }
        book.pieces() as usize == self.count()
    }
}
