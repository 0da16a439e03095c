use pci_command::{Command, Request, Space, address_phases};

#[test]
fn commands_by_code(rt: HostRuntime) {
    let known = [2, 3, 6, 7, 10, 11, 12, 14, 15];
    for code in 0..=16u8 {
        let command = Command::from_code(code);
        assert_eq!(rt; command.is_some(), known.contains(&code), "code {code}");
        assert_eq!(rt; command.map_or(code, |command| command.code()), code);
    }
    let line = Command::MemReadLine;
    assert_eq!(rt;
        (line.plain(), line.space()),
        (Command::MemRead, Space::Mem)
    );
}

#[test]
fn a_long_address_is_driven_in_two_phases(rt: HostRuntime) {
    for (address, driven) in [
        (0x40, [(7, 0x40)].as_slice()),
        (0x1_0000_0040, [(13, 0x40), (7, 1)].as_slice()),
    ] {
        let write = Request {
            command: Command::MemWrite,
            address,
            ..Request::default()
        };
        assert_eq!(rt; address_phases(&write).as_slice(), driven);
    }
}
