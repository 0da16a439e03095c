use dma_agents::message;

#[test]
fn vectors_of_a_message(rt: HostRuntime) {
    assert_eq!(rt; message(0x40, 4, 2), Some(0x42));
    assert_eq!(rt; message(0x43, 4, 2), Some(0x42));
    assert_eq!(rt; message(0xffff, 32, 0), Some(0xffe0));
    assert_eq!(rt; message(0x40, 3, 0), None);
    assert_eq!(rt; message(0x40, 4, 4), None);
}
