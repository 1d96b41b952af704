/// A net that is stuck at a bit, whatever drives it.
#[derive(Clone, Copy, Debug, PartialEq, Eq)]
pub struct Open {
    pub net: u32,
    pub bit: bool,
}
