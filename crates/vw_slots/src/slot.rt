ghost use Rattle.std.specs.Prelude.{◌≡◌};

/// A pin of a link in one microcycle.
#[derive(Clone, Copy, Debug, PartialEq, Eq)]
pub struct Slot {
    /// The pin of the link, from 0.
    pub pin: u32,
    /// The microcycle, from 0.
    pub at: u64,
}

impl Slot {
    /// This pin in this microcycle.
    pub fn make(pin: u32, at: u64) -> Self
        ensures pin { result.pin ≡ pin }
        ensures at { result.at ≡ at }
    {
        Slot { pin, at }
    }

    /// The pin of the link, from 0.
    pub fn pin(&self) -> u32
        ensures { result ≡ self.now.pin }
    {
        self.pin
    }

    /// The microcycle, from 0.
    pub fn at(&self) -> u64
        ensures { result ≡ self.now.at }
    {
        self.at
    }
}

/// A slot that is taken, with its link.
#[derive(Clone, Copy, Debug, PartialEq, Eq)]
pub struct Taken {
    /// The number of the link.
    pub link: u32,
    /// The pin of the link, from 0.
    pub pin: u32,
    /// The microcycle, from 0.
    pub at: u64,
}
