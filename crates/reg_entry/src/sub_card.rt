/// What the register knows of a sub-assignment: the number of its holder, and its day.
#[derive(Clone, Copy)]
pub struct SubCard {
    pub holder: u32,
    pub day: u32,
}
