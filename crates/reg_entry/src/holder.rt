use crate::{Cc, Handle, Kind, Text};

/// Who may hold numbers, as the register knows them.
#[derive(Clone, Copy, PartialEq, Eq)]
pub struct Holder {
    pub handle: Handle,
    pub kind: Kind,
    pub cc: Cc,
    /// The name in full.
    pub name: Text,
    pub email: Text,
}
