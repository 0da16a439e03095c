//! The limits of this project, each number once, and what follows from them.
ghost use Rattle.std.specs.Prelude.{◌≡◌};
ghost use Rattle.board_model.specs.Limits.{LimitsFit, most_bridges, most_plans, most_children};
ghost use Rattle.board_model.specs.Limits.{most_agents, most_ports, request_lines};
ghost use Rattle.board_model.specs.Limits.{room_of_a_turn, most_posted, most_delayed};
ghost use Rattle.board_model.specs.Limits.{most_waiting, most_dwords, most_ops, most_tries};
ghost use Rattle.board_model.specs.Limits.{most_openings, most_in_flight, most_standing};
ghost use Rattle.board_model.specs.Limits.{most_offers};

/// Bridges of a board.
pub const MOST_BRIDGES: usize = 31;

/// Bridges below a bus.
pub const MOST_CHILDREN: usize = 8;

/// Targets and masters on a bus.
pub const MOST_AGENTS: usize = 8;

/// Posted writes that a bridge holds, each way.
pub const MOST_POSTED: u8 = 8;

/// Delayed requests that a bridge holds, each way.
pub const MOST_DELAYED: u8 = 8;

/// Dwords of a burst.
pub const MOST_DWORDS: usize = 8;

/// Operations of a master.
pub const MOST_OPS: usize = 1024;

/// Operations of a board, each poll counted by its tries; so tries of a poll too.
pub const MOST_TRIES: u32 = 65_536;

/// Words that a target begins with.
pub const MOST_OPENINGS: usize = 256;

/// Lines `discard` of a board, and lines `drop`.
pub const MOST_PLANS: usize = 1024;

/// Items that wait in one direction between two buses, whatever bridges hold: a schedule.
pub const MOST_WAITING: usize = 32;

/// Request lines that an arbiter has a bit for.
pub const REQUEST_LINES: u8 = 32;

/// Events that a bus keeps room for before each turn.
pub const ROOM_OF_A_TURN: usize = 512;

/// Ports of a bus: that of the bridge above, and of those below.
pub const MOST_PORTS: usize = 1 + MOST_CHILDREN;

/// Items of a lane that are neither arrived nor refused: posted writes and delayed requests of
/// both sides.
pub const MOST_IN_FLIGHT: usize = 2 * MOST_POSTED as usize + 2 * MOST_DELAYED as usize;

/// Items that stand on a lane: posted writes, requests and completions.
pub const MOST_STANDING: usize = MOST_POSTED as usize + 2 * MOST_DELAYED as usize;

/// Offers that a port has at once: requests and completions; a posted write is before them.
pub const MOST_OFFERS: usize = 2 * MOST_DELAYED as usize;

/// The numbers of the code are those of the definitions, and what the code keeps them in holds
/// them.
pub fn limits_fit()
    ensures board { (MOST_BRIDGES ≡ most_bridges) × (MOST_PLANS ≡ most_plans) }
    ensures bus { (MOST_CHILDREN ≡ most_children) × (MOST_AGENTS ≡ most_agents) ×
        (MOST_PORTS ≡ most_ports) × (REQUEST_LINES ≡ request_lines) ×
        (ROOM_OF_A_TURN ≡ room_of_a_turn) }
    ensures bridge { (MOST_POSTED ≡ most_posted) × (MOST_DELAYED ≡ most_delayed) ×
        (MOST_WAITING ≡ most_waiting) }
    ensures agent { (MOST_DWORDS ≡ most_dwords) × (MOST_OPS ≡ most_ops) ×
        (MOST_TRIES ≡ most_tries) × (MOST_OPENINGS ≡ most_openings) }
    ensures lane { (MOST_IN_FLIGHT ≡ most_in_flight) × (MOST_STANDING ≡ most_standing) ×
        (MOST_OFFERS ≡ most_offers) }
    ensures fit { LimitsFit }
{}
