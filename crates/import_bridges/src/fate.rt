use board_model::{MOST_BRIDGES, MOST_CHILDREN, Window};
use std::fmt;

/// The buses from the first to the last.
#[derive(Clone, Copy, Debug, PartialEq, Eq)]
pub struct Buses {
    pub first: u8,
    pub last: u8,
}

/// Why a bridge is left out. Buses are those of the text.
#[derive(Clone, Copy, Debug, PartialEq, Eq)]
pub enum NoBridge {
    /// No bridge that is taken leads to this bus, on which it is.
    NoWay(u8),
    /// It has these buses, which are none behind its own.
    WrongBuses(Buses),
    /// It has these buses, which are not all behind this bus, on which it is.
    OutsideBuses(Buses, u8),
    /// It has these buses, of which a bridge before on its bus has some.
    SharedBuses(Buses),
    /// There are eight bridges on its bus, or 31 on the board.
    Full,
    /// No device number is free.
    NoDevice,
}

/// Why a window of a bridge is closed.
#[derive(Clone, Copy, Debug, PartialEq, Eq)]
pub enum NoWindow {
    /// Its registers are zero.
    Zero,
    /// The command register turns it off.
    Off,
    /// The bridge to this bus, on which the bridge is, does not pass all of it.
    InNone(u8),
    /// The bridge to this bus, on the same bus, passes some of it.
    Meets(u8),
}

#[derive(Clone, Copy, Debug, PartialEq, Eq)]
pub enum WindowFate {
    /// The bridge has none.
    Absent,
    Open(Window),
    Closed(Window, NoWindow),
}

/// A bridge of the board.
#[derive(Clone, Copy, Debug, PartialEq, Eq)]
pub struct TakenBridge {
    /// The bus on which it is, by the text.
    pub parent: u8,
    /// The bus below it, and the last bus behind it.
    pub bus: u8,
    pub last: u8,
    /// Its device number on the board.
    pub device: u8,
    pub mem: WindowFate,
    pub pref: WindowFate,
    pub io: WindowFate,
}

#[derive(Clone, Copy, Debug, PartialEq, Eq)]
pub enum BridgeFate {
    LeftOut(NoBridge),
    Taken(TakenBridge),
}

impl fmt::Display for Buses {
    fn fmt<W: fmt::Write>(&self, f: &mut fmt::Formatter<W>) -> fmt::Result {
        let Buses { first, last } = self;
        write!(f, "{first} to {last}")
    }
}

/// That buses are not behind a bus.
#[derive(Clone, Copy)]
struct NotBehind(u8);

impl fmt::Display for NotBehind {
    fn fmt<W: fmt::Write>(&self, f: &mut fmt::Formatter<W>) -> fmt::Result {
        let bus = self.0;
        write!(f, " are not those behind bus {bus}")
    }
}

impl fmt::Display for NoBridge {
    fn fmt<W: fmt::Write>(&self, f: &mut fmt::Formatter<W>) -> fmt::Result {
        match self {
            NoBridge::NoWay(bus) => write!(f, "no bridge of this board leads to bus {bus}"),
            NoBridge::WrongBuses(buses) => write!(f, "its buses are {buses}"),
            NoBridge::OutsideBuses(buses, bus) => {
                let behind = NotBehind(*bus);
                write!(f, "its buses {buses}{behind}")
            }
            NoBridge::SharedBuses(buses) => write!(f, "another bridge has buses of {buses}"),
            NoBridge::Full => write!(
                f,
                "there are {} bridges on its bus or {} on the board",
                MOST_CHILDREN, MOST_BRIDGES
            ),
            NoBridge::NoDevice => f.write_str("no device number is free"),
        }
    }
}

impl fmt::Display for NoWindow {
    fn fmt<W: fmt::Write>(&self, f: &mut fmt::Formatter<W>) -> fmt::Result {
        match self {
            NoWindow::Zero => f.write_str("its registers are zero"),
            NoWindow::Off => f.write_str("its decoding is off"),
            NoWindow::InNone(bus) => write!(f, "it is in no window of bridge {bus}"),
            NoWindow::Meets(bus) => write!(f, "it meets a window of bridge {bus}"),
        }
    }
}
