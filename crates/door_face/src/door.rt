/// The two doors of the register.
#[derive(Clone, Copy)]
pub enum Door {
    /// Where HTTP is spoken.
    Http,
    /// Where one line is asked, and one answer sent.
    Line,
}
