use std::fmt;

/// Why an event is not allowed after those before it.
#[derive(Clone, Copy, Debug, PartialEq, Eq)]
pub enum Why {
    /// The initiator does not present that operation on that bus now.
    NotPresented,
    /// The operation is answered by another event.
    AnsweredOtherwise,
    /// The operation is answered with Retry.
    GetsRetry,
    /// Nothing is in flight on the lane.
    NothingInFlight,
    /// The board marks this arrival otherwise.
    MarkedOtherwise,
}

impl fmt::Display for Why {
    ghost use Rattle.std.specs.Prelude.{Some};
    ghost use Rattle.history_model.specs.WhyText.{why_text};

    ghost output = { λ why. Some (why_text why) };

    fn fmt<W: fmt::Write>(&self, f: &mut fmt::Formatter<W>) -> fmt::Result {
        f.write_str(match self {
            Why::NotPresented => "N1",
            Why::AnsweredOtherwise => "N2",
            Why::GetsRetry => "N3",
            Why::NothingInFlight => "N4",
            Why::MarkedOtherwise => "N5",
        })
    }
}
