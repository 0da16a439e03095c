ghost use Rattle.std.specs.Prelude.{◌<◌, ◌^◌, length};

use plain_decode::{TextFault, lines};
use std::alloc::Global;
use std::test::Fail;
use text_faults::{AtLine, LineFault};

// The number, start and end of each token.
fn places(alloc: Global, text: &[u8]) -> Result<Vec<(u32, u32, u32)>, TextFault>
    requires { length text.now < 2 ^ 31 }
{
    let mut places = Vec::new(alloc);
    for line in lines(alloc, text)?.as_slice() {
        for token in line.tokens.as_slice() {
            places.push((line.number, token.start, token.end))?;
        }
    }
    Ok(places)
}

#[test]
fn tokens_with_their_lines_and_places(rt: HostRuntime) -> Result<(), Fail> {
    let text = b"pciboard 1\n\n# a bridge\n \tbridge 1# on\nio";
    let expected = [(1, 0, 8), (1, 9, 10), (4, 25, 31), (4, 32, 33), (5, 38, 40)];
    assert_eq!(rt; places(rt.alloc(), text)?.as_slice(), expected.as_slice());
    let fault = TextFault::Fault(AtLine {
        line: 3,
        fault: LineFault::BadByte,
    });
    assert_eq!(rt; places(rt.alloc(), b"a\n\n\x7f\n\x80").err(), Some(fault));
    Ok(())
}
