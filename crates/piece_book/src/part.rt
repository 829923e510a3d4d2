use reg_entry::Card;

/// What a piece has beside its space and its first number.
#[derive(Clone, Copy)]
pub struct Part {
    pub last: u128,
    pub card: Card,
}

/// Number 0 with the plain card, to fill what has room for parts.
impl Default for Part {
    fn default() -> Part {
        Part {
            last: 0,
            card: Card::plain(),
        }
    }
}
