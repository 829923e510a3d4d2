/// How much a register may keep.
#[derive(Clone, Copy, PartialEq, Eq)]
pub struct Rooms {
    pub pieces: u32,
    pub holders: u32,
    pub subs: u32,
    pub reverse: u32,
    pub entries: u64,
    /// How many of the last operations are kept.
    pub window: u32,
}
