// The channels of an edit decision list.
ghost use Rattle.std.specs.Prelude.{◌≡◌};
ghost use Rattle.edl_events.specs.Channels.{is_on, set_of};

/// A channel of an edit decision list, after CMX 3600.
#[derive(Clone, Copy, Debug, PartialEq, Eq)]
pub enum Channel {
    /// Picture.
    V,
    /// The first channel of sound.
    A,
    /// The second channel of sound.
    A2,
}

impl Channel {
    /// The set of this channel alone: bit 0 is V, bit 1 is A, bit 2 is A2.
    pub fn set(self) -> u8
        ensures { result ≡ set_of self }
    {
        match self {
            Channel::V => 1,
            Channel::A => 2,
            Channel::A2 => 4,
        }
    }

    /// Whether it is in a set of channels.
    pub fn is_in(self, channels: u8) -> bool
        ensures { result ≡ is_on self channels }
    {
        channels / self.set() % 2 == 1
    }
}
