ghost use Rattle.std.specs.Prelude.{◌≡◌, ◌<◌, replicate, slice_index, slice_set};

/// The places of a list, each chained to the next one of its bus. Place 256 is behind all.
#[derive(Debug, Drop)]
pub(crate) struct Chains {
    /// The first place of each bus.
    first: [u16; 256],
    /// Behind each place the next of its bus.
    next: [u16; 256],
}

impl Chains {
    /// No place.
    pub(crate) fn none() -> Chains
        ensures first { result.first ≡ replicate 256 256 }
        ensures next { result.next ≡ replicate 256 256 }
    {
        Chains {
            first: [256; 256],
            next: [256; 256],
        }
    }

    /// One place more of the bus, which is before all that are there.
    pub(crate) fn put(&mut self, bus: u8, place: u16)
        requires { place < 256 }
        ensures first { self.new.first ≡ slice_set self.old.first bus place }
        ensures next { self.new.next ≡
            slice_set self.old.next place (slice_index self.old.first bus) }
        ensures small { bus < 256 }
    {
        let behind = self.first[bus as usize];
        self.next[place as usize] = behind;
        self.first[bus as usize] = place;
    }

    /// The first place of the bus.
    pub(crate) fn first_of(&self, bus: u8) -> u16
        ensures { result ≡ slice_index self.now.first bus }
    {
        self.first[bus as usize]
    }

    /// The next place of its bus behind this one.
    pub(crate) fn next_of(&self, place: u16) -> u16
        requires { place < 256 }
        ensures { result ≡ slice_index self.now.next place }
    {
        self.next[place as usize]
    }
}
