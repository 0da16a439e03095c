ghost use Rattle.std.specs.Prelude.{◌≡◌, ◌≢◌, ℕ, ◌<◌, ◌≤◌, ◌^◌, true, Some, ◌&&◌, ◌==◌, nat_le};
ghost use Rattle.std.specs.Prelude.{if◌then◌else◌};
ghost use Rattle.pci_command.specs.declared.command.Space.{Space};
ghost use Rattle.board_model.specs.declared.bridge.Bridge.{Bridge};
ghost use Rattle.board_model.specs.declared.bridge.Place.TheVariants.{Lane as LaneOf};
ghost use Rattle.board_model.specs.declared.bridge.Place.TheVariants.{Nobody as NobodyOf};
ghost use Rattle.board_model.specs.Requests.{configuration_address};
ghost use Rattle.board_model.specs.Claims.{bridge_holds, decodes_down, claim_upwards, claim_by_bus};
ghost use Rattle.board_model.specs.Claims.{bus_in};
ghost use Rattle.plain_decode.specs.Decoding.{holds_elsewhere, route_of_address, is_taken};
ghost use Rattle.plain_decode.specs.Decoding.{driven_by};

/// What the decoding of a bridge has to do with claims. Downwards it is a bridge's part of the
/// claim by address, upwards that of the bus's own bridge; in configuration space the bridge takes
/// an address of type 1 where it leads to the bus that is named. What it then drives on its
/// secondary bus is the address that an operation on that register has there.
pub fn decoding_is_claim()
    ensures downwards { (bus address : ℕ) (space : Space) (bridge : Bridge)
        → decodes_down bus space address bridge ≡
        (bridge.parent == bus && bridge_holds space address bridge) }
    ensures upwards { (bus address : ℕ) (space : Space) (bridge : Bridge) → space ≢ Space.Cfg
        → claim_upwards bus space address (Some bridge)
        ≡ (if holds_elsewhere space address bridge then
        LaneOf (record { bus = bus; up = true }) else NobodyOf) }
    ensures by_bus { (address : ℕ) (bridge : Bridge) → bridge.bus ≤ bridge.last
        → is_taken (route_of_address address bridge)
        ≡ (nat_le bridge.bus (bus_in address) && nat_le (bus_in address) bridge.last) }
    ensures driven { (on bus device register : ℕ) (bridge : Bridge)
        → on ≢ bus → bus < 2 ^ 8 → device < 2 ^ 5 → register < 2 ^ 6
        → is_taken (route_of_address (configuration_address on bus device register) bridge) ≡ true
        → driven_by (route_of_address (configuration_address on bus device register) bridge)
        ≡ Some (configuration_address bridge.bus bus device register) }
{}
