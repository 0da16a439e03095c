use board_model::{Master, Op};
use std::process::Abort;
use std::test::Fail;
use traffic_generator::{Rounds, generate};

/// One round begins with a write of block 6 of the target on bus 2, of seven words. No report shows
/// what is drawn: the numbers of events stay the same whatever it is.
#[test]
fn one_round_is_drawn(rt: HostRuntime) -> Result<(), Fail> {
    let rounds = Rounds::new(1).ok_or("no rounds")?;
    let tree = generate(rt.alloc(), &rounds)?;
    assert_eq!(rt; tree.bound(), 97);
    first_of_three(&rt, tree.board().masters.as_slice())
}

fn first_of_three(rt: &impl Abort, masters: &[Master]) -> Result<(), Fail> {
    let [first, _, _] = masters else {
        return Err("three masters".into());
    };
    match first.ops.as_slice() {
        [
            Op::Write {
                address,
                phases,
                ..
            },
            Op::Read { address: read, .. },
            _,
        ] => {
            assert_eq!(rt; (*address, *read), (0x8010_0180, 0x8010_0180));
            assert_eq!(rt; phases.len(), 7);
            let word = phases.as_slice().first().ok_or("no word")?;
            assert_eq!(rt; word.value, 0x2781_c46b);
            Ok(())
        }
        _ => Err("other operations".into()),
    }
}
