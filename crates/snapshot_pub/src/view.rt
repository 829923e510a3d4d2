use entry_log::Front;
use reg_entry::Rooms;

/// What a reader knows, in proofs alone: once it has looked, the rooms of the register and the list that it saw.
pub struct View {
    pub knows: bool,
    pub rooms: Rooms,
    pub seen: Front,
}
