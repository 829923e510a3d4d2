use entry_log::Front;
use reg_entry::Entry;

/// An entry that isn't published yet, and the list that ends with it.
#[derive(Drop)]
pub struct Put {
    pub entry: Entry,
    pub front: Front,
}
