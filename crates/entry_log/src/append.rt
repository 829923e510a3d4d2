use reg_entry::Entry;

/// An entry put behind the first `keeps` entries of a list; those behind them are cut off.
#[derive(Drop)]
pub struct Append {
    pub keeps: u64,
    pub entry: Entry,
}
