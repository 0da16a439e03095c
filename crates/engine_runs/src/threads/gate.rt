/// Told of the work of each bus, by the thread that does it.
pub trait Gate {
    /// The worker of the bus begins its turns of a phase.
    fn meet(&self, bus: u8);

    /// The bus did a turn, which made so many events.
    fn did(&self, bus: u8, events: u32);
}

/// Takes no notice.
#[derive(Clone, Copy, Debug, Drop)]
pub struct NoGate;

impl Gate for NoGate {
    fn meet(&self, bus: u8) {
        let _ = bus;
    }

    fn did(&self, bus: u8, events: u32) {
        let _ = (bus, events);
    }
}
