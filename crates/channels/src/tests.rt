ghost use Rattle.std.specs.Prelude.{◌≡◌};
ghost use Rattle.channels.specs.Standing.{Standing};
ghost use Rattle.machine.specs.Means.{mean_of};

use crate::calls;
use crate::making::new_state;
use machine::fault::ChannelFault;
use machine::state::State;
use program::layout::Words;

// Calls on a channel that there is not leave all of the state as it was, its lines too.
fn refused(state: &mut State, words: Words)
    requires { Standing (mean_of state.old) }
    ensures { state.new ≡ state.old }
{
    let _ = calls::put(state, 16, 0, 5);
    let _ = calls::fill(state, 16, b"\x00\x00");
    let _ = calls::stop(state, 16);
    let _ = calls::release(state, 16);
    let _ = calls::start(state, 16, words);
}

#[test]
fn refusals(rt: HostRuntime) {
    let words = Words {
        first: 0,
        second: 0,
        third: 0,
    };
    let mut state = new_state();
    refused(&mut state, words);
    assert!(rt; calls::start(&mut state, 0, words).is_err());
    for channel in 0..16 {
        assert_eq!(rt;
            calls::put(&mut state, channel, 0, 5),
            Err(ChannelFault::Unreserved)
        );
        assert!(rt; calls::reserve(&mut state).is_ok());
    }
    assert!(rt; calls::reserve(&mut state).is_err());
    assert_eq!(rt; calls::put(&mut state, 3, 7, 5), Ok(()));
    assert_eq!(rt; calls::stop(&mut state, 3), Err(ChannelFault::NotRunning));
    assert_eq!(rt; calls::look(&state, 3, 7), Ok(5));
    assert_eq!(rt; calls::release(&mut state, 3), Ok(()));
    assert_eq!(rt;
        calls::release(&mut state, 3),
        Err(ChannelFault::Unreserved)
    );
}
