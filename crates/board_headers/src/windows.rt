ghost use Rattle.std.specs.Prelude.{◌≡◌};
ghost use Rattle.board_headers.specs.Windows.{has_ordered_buses};

use board_model::Window;

/// What a header says of buses and windows (PCI-to-PCI Bridge Architecture 1.1, section 3.2.5, from
/// memory).
#[derive(Clone, Copy, Debug, Default, PartialEq, Eq)]
pub struct Windows {
    /// The bus above the bridge.
    pub primary: u8,
    /// The bus below the bridge, and the last bus behind it.
    pub secondary: u8,
    pub subordinate: u8,
    /// The memory window, which is not prefetchable. `None` is a closed window.
    pub mem: Option<Window>,
    /// The prefetchable memory window.
    pub pref: Option<Window>,
    pub io: Option<Window>,
    /// The master abort mode.
    pub mode: bool,
}

impl Windows {
    /// Whether the buses behind the bridge are numbered above its primary bus.
    pub fn has_ordered_buses(&self) -> bool
        ensures { result ≡ has_ordered_buses self.now }
    {
        self.primary < self.secondary && self.secondary <= self.subordinate
    }
}
