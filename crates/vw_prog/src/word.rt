ghost use Rattle.std.specs.Prelude.{◌≡◌};

/// What is sent over a link: the bit of a net in a clock, on a pin.
#[derive(Clone, Copy, Debug, PartialEq, Eq)]
pub struct Word {
    /// The clock, counted over all jobs of a run.
    pub clock: u64,
    pub net: u32,
    /// The pin of the link.
    pub pin: u32,
    pub bit: bool,
}

impl Word {
    /// The word of a net in a clock, on a pin.
    pub fn make(clock: u64, net: u32, pin: u32, bit: bool) -> Self
        ensures clock { result.clock ≡ clock }
        ensures net { result.net ≡ net }
        ensures pin { result.pin ≡ pin }
        ensures bit { result.bit ≡ bit }
    {
        Word {
            clock,
            net,
            pin,
            bit,
        }
    }

    /// The clock, counted over all jobs of a run.
    pub fn clock(&self) -> u64
        ensures { result ≡ self.now.clock }
    {
        self.clock
    }

    /// The net.
    pub fn net(&self) -> u32
        ensures { result ≡ self.now.net }
    {
        self.net
    }

    /// The pin of the link.
    pub fn pin(&self) -> u32
        ensures { result ≡ self.now.pin }
    {
        self.pin
    }

    /// The bit.
    pub fn bit(&self) -> bool
        ensures { result ≡ self.now.bit }
    {
        self.bit
    }
}
