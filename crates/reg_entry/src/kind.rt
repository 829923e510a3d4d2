/// What a holder is: a local Internet registry, which makes sub-assignments (RFC 7020 3), or an end user.
#[derive(Clone, Copy, PartialEq, Eq)]
pub enum Kind {
    Lir,
    EndUser,
}
