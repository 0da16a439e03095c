ghost use Rattle.std.specs.Prelude.{◌≡◌, ◌↔◌, IsTrue, length, not};
ghost use Rattle.std.specs.List.{list_any};
ghost use Rattle.pci_command.specs.declared.command.Command.TheVariants.{MemWrite};
ghost use Rattle.pci_command.specs.Same.{same_command, same_request};
ghost use Rattle.board_model.specs.Requests.{command_of, request_on};
ghost use Rattle.board_model.specs.Ways.{route_within, start_of};
ghost use Rattle.board_model.specs.WellFormed.{is_well_formed};
ghost use Rattle.history_model.specs.World.{same_lane};
ghost use Rattle.law_untagged.specs.ApartTest.{delayed_way, meets_on, ops_meet};
ghost use Rattle.untagged_apart.specs.Look.{NeverSame, AddressesDiffer, RegistersDiffer, IsThere};
ghost use Rattle.untagged_apart.specs.Look.{register_in, address_in};

use board_model::{Board, Lane, Op, Place, claim, end_of, primary_of, request_on};
use pci_command::{Command, Request, Space, same_request};

/// A register of the configuration space of a device on a bus.
#[derive(Clone, Copy)]
pub struct Register {
    pub bus: u8,
    pub device: u8,
    pub number: u8,
}

/// Whether some lane takes both operations, and their requests are the same where it begins.
pub(crate) fn ops_meet(board: &Board, on: u8, op: &Op, other_on: u8, other: &Op) -> bool
    requires { IsTrue (is_well_formed board.now) }
    ensures { result ≡ ops_meet board.now on op.now other_on other.now }
{
    if !is_delayed(op) {
        return false;
    }
    if !may_meet(op, other) {
        return false;
    }
    meets_within(board, on, op, other_on, other, bridges_of(board))
}

/// How many bridges the board has: no way takes more lanes.
fn bridges_of(board: &Board) -> u8
    requires { IsTrue (is_well_formed board.now) }
    ensures { result ≡ length board.now.bridges }
{
    board.bridges.as_slice().len() as u8
}

/// The same on the lanes of the way from the bus on, at most so many.
fn meets_within(board: &Board, on: u8, op: &Op, other_on: u8, other: &Op, most: u8) -> bool
    requires { IsTrue (is_well_formed board.now) }
    ensures { result ≡ list_any (meets_on board.now op.now other_on other.now)
        (route_within most board.now op.now on).lanes }
{
    if most == 0 {
        return false;
    }
    match claim(board, on, &request_on(op, on)) {
        Place::Lane(lane) => {
            meets_on(board, op, other_on, other, lane)
                || meets_within(board, end_of(board, lane), op, other_on, other, most - 1)
        }
        Place::Target(_) | Place::Header(_) | Place::Nobody => false,
    }
}

/// Whether the lane is one of the other's too, and the requests are the same where it begins.
fn meets_on(board: &Board, op: &Op, other_on: u8, other: &Op, lane: Lane) -> bool
    requires { IsTrue (is_well_formed board.now) }
    ensures { result ≡ meets_on board.now op.now other_on other.now lane }
{
    let start = start_of(board, lane);
    is_taken(board, other_on, other, lane) && have_same_request(op, other, start)
}

pub(crate) fn have_same_request(op: &Op, other: &Op, bus: u8) -> bool
    ensures { result ≡ same_request (request_on op.now bus) (request_on other.now bus) }
{
    are_same(&request_on(op, bus), &request_on(other, bus))
}

fn are_same(a: &Request, b: &Request) -> bool
    ensures { result ≡ same_request a.now b.now }
{
    same_request(a, b)
}

/// Whether a delayed operation takes the lane.
fn is_taken(board: &Board, on: u8, op: &Op, lane: Lane) -> bool
    requires { IsTrue (is_well_formed board.now) }
    ensures { result ≡ list_any (same_lane lane) (delayed_way board.now on op.now) }
{
    is_delayed(op) && is_taken_within(board, on, op, lane, bridges_of(board))
}

/// Whether one of the lanes of its way from the bus on, at most so many, is this one.
fn is_taken_within(board: &Board, on: u8, op: &Op, lane: Lane, most: u8) -> bool
    requires { IsTrue (is_well_formed board.now) }
    ensures { result ≡ list_any (same_lane lane) (route_within most board.now op.now on).lanes }
{
    if most == 0 {
        return false;
    }
    match claim(board, on, &request_on(op, on)) {
        Place::Lane(first) => {
            is_same_lane(lane, first)
                || is_taken_within(board, end_of(board, first), op, lane, most - 1)
        }
        Place::Target(_) | Place::Header(_) | Place::Nobody => false,
    }
}

fn is_same_lane(a: Lane, b: Lane) -> bool
    ensures { result ≡ same_lane a b }
{
    a.bus == b.bus && a.up == b.up
}

/// The bus from which what a lane carries comes.
fn start_of(board: &Board, lane: Lane) -> u8
    ensures { result ≡ start_of board.now lane }
{
    if lane.up {
        lane.bus
    } else {
        primary_of(board, lane.bus)
    }
}

/// A first look: false only where the requests of the two differ on every bus.
fn may_meet(op: &Op, other: &Op) -> bool
    ensures { NeverSame result op.now other.now }
{
    command_of(op) == command_of(other) && !addresses_differ(op, other)
}

/// Whether the operation is no write in memory.
pub(crate) fn is_delayed(op: &Op) -> bool
    ensures { result ≡ not (same_command (command_of op.now) MemWrite) }
{
    command_of(op) != Command::MemWrite
}

fn command_of(op: &Op) -> Command
    ensures { result ≡ command_of op.now }
{
    match op {
        Op::Read { command, .. } | Op::Write { command, .. } => command.plain(),
        Op::CfgRead { .. } => Command::CfgRead,
        Op::CfgWrite { .. } => Command::CfgWrite,
        Op::Poll { space, .. } => match *space {
            Space::Mem => Command::MemRead,
            Space::Io => Command::IoRead,
            Space::Cfg => Command::CfgRead,
        },
    }
}

/// Whether the addresses of the two differ on every bus: only where it answers so is that known.
fn addresses_differ(op: &Op, other: &Op) -> bool
    ensures { AddressesDiffer result op.now other.now }
{
    match (register_of(op), register_of(other)) {
        (Some(a), Some(b)) => registers_differ(a, b),
        (None, None) => address_of(op) != address_of(other),
        (Some(_), None) | (None, Some(_)) => false,
    }
}

/// The register of an operation in configuration space.
fn register_of(op: &Op) -> Option<Register>
    ensures { result ≡ register_in op.now }
{
    match op {
        Op::CfgRead {
            bus,
            device,
            register,
        } => Some(register_at(*bus, *device, *register)),
        Op::CfgWrite {
            bus,
            device,
            register,
            ..
        } => Some(register_at(*bus, *device, *register)),
        Op::Read { .. } | Op::Write { .. } | Op::Poll { .. } => None,
    }
}

fn register_at(bus: u8, device: u8, number: u8) -> Register
    ensures { result ≡ record { bus = bus; device = device; number = number } }
{
    Register {
        bus,
        device,
        number,
    }
}

/// Whether these are two registers of devices that there can be.
fn registers_differ(a: Register, b: Register) -> bool
    ensures { RegistersDiffer result a b }
{
    is_there(a) && is_there(b) && !(a.bus == b.bus && a.device == b.device && a.number == b.number)
}

fn is_there(register: Register) -> bool
    ensures { IsTrue result ↔ IsThere register }
{
    register.device < 32 && register.number < 64
}

/// The address of an operation in memory or I/O, which is the same on every bus.
fn address_of(op: &Op) -> u64
    ensures { result ≡ address_in op.now }
{
    match op {
        Op::Read { address, .. } | Op::Write { address, .. } | Op::Poll { address, .. } => *address,
        Op::CfgRead { .. } | Op::CfgWrite { .. } => 0,
    }
}
