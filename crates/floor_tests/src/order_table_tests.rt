use order_table::{first_blocker, may_pass};
use pci_command::Kind;

#[test]
fn posted_writes_block_all_but_write_completions(rt: HostRuntime) {
    assert!(rt; !may_pass(Kind::Drc, Kind::Pmw));
    assert!(rt; may_pass(Kind::Pmw, Kind::Drc));
    let older = [Kind::Dwc, Kind::Pmw, Kind::Pmw];
    assert_eq!(rt; first_blocker(Kind::Drr, &older), Some(1));
    assert_eq!(rt; first_blocker(Kind::Dwc, &older), None);
}
