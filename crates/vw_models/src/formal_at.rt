use vw_outside::Name;

/// A formal of a placed model that is at fault, and the line of its item.
#[derive(Drop)]
pub struct FormalAt {
    /// The number of the line, from 1.
    pub line: u64,
    /// The name of the formal.
    pub formal: Name,
}
