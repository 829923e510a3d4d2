use door_face::Way;
use snapshot_pub::Pass;

/// What a duty leaves: its pass, its way, how many links were served, up to the greatest number of the type, at which the
/// count stays, and whether the way failed.
#[derive(Drop)]
pub struct Served<W: Way> {
    pub pass: Pass,
    pub way: W,
    pub connections: u64,
    pub has_failed: bool,
}
