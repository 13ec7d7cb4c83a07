use crate::{read_script, status};
use commands::trouble::Trouble;
use session::script::Script;
use session::session::Session;
use std::alloc::Global;
use std::process::{Abort, ExitCode};
use std::test::Fail;

fn refuses(rt: &impl Abort, heap: Global, line: &[u8]) -> Result<(), Fail> {
    let mut out = Vec::new(heap);
    match Session::new(heap).answer(line, &mut out) {
        Err(Trouble::BadLine) => {
            assert!(rt; out.is_empty());
            Ok(())
        },
        _ => Err(Fail::new("not a bad line")),
    }
}

#[test]
fn bad_lines(rt: HostRuntime) -> Result<(), Fail> {
    let lines: [&[u8]; 12] = [
        b"programs 0 0 0",
        b"Program 0 0 0",
        b"program 0 0",
        b"program 0 0 0 0",
        b"program 0 0 -1",
        b"program 0 0 4294967296",
        b"program 0 0 0\r",
        b"pieces\t0 0 0",
        b"join xor 1 2",
        b"join and 1 2 #",
        b"memory",
        b"\xff\x00",
    ];
    for line in lines {
        refuses(&rt, rt.alloc(), line)?;
    }
    Ok(())
}

#[test]
fn bad_piles(rt: HostRuntime) -> Result<(), Fail> {
    let lines: [&[u8]; 20] = [
        b"memory flat 1",
        b"memory flat [1",
        b"memory flat 1]",
        b"memory flat [1]]",
        b"memory flat [[1]",
        b"memory flat [1] 2",
        b"memory flat 3 [1]",
        b"memory [1]",
        b"memory hollow [1]",
        b"memory flat [1:2]",
        b"memory flat [1*]",
        b"memory flat [*1]",
        b"memory flat [1*2*3]",
        b"memory flat [1*4294967296]",
        b"memory catalogue [1]",
        b"memory catalogue [1:2:3]",
        b"memory spread flat [1]",
        b"memory route 1 flat [1]",
        b"memory route 1 flat [1] flat [2] flat [3]",
        b"memory route 1 flat [1] spread 3 flat [2]",
    ];
    for line in lines {
        refuses(&rt, rt.alloc(), line)?;
    }
    Ok(())
}

#[test]
fn lines_are_counted(rt: HostRuntime) -> Result<(), Fail> {
    let mut out = Vec::new(rt.alloc());
    let mut script = Script::new(rt.alloc());
    script.take(b"# first\n\njo", &mut out)?;
    script.take(b"in add 1 2\nwrong\n  \nnone", &mut out)?;
    assert!(rt; script.end(&mut out).is_err());
    assert_eq!(rt;
        out.as_slice(),
        b"word 3\nerror line 4\nerror line 6\n".as_slice()
    );
    Ok(())
}

// A refusal of the library is an answer, so a script that meets some, and has no bad line, ends well.
#[test]
fn refusals_are_answers(rt: HostRuntime) -> Result<(), Fail> {
    let mut out = Vec::new(rt.alloc());
    let mut script = Script::new(rt.alloc());
    script.take(
        b"program 2097152 0 0\nmemory spread 2 flat [1]\n# none\nmemory flat [1]\nmover\nlook 0 0\n",
        &mut out,
    )?;
    script.take(b"reserve\nlook 0 256", &mut out)?;
    assert!(rt; script.end(&mut out).is_ok());
    assert_eq!(rt;
        out.as_slice(),
        b"refused 3 detail 21 layer words\nrefused 43 detail 0 layer memory\nmemory ready\nmover ready\n\
          refused 22 detail 0 layer channel\nchannel 0\nrefused 2 detail 0 layer channel\n"
            .as_slice()
    );
    Ok(())
}

// The same of the program, as far as it goes on a reader and a writer: with a bad line its status is 1, and without one 0.
#[test]
fn statuses(rt: HostRuntime) -> Result<(), Fail> {
    let mut out = Vec::new(rt.alloc());
    let mut good: &[u8] = b"memory flat [0]\njoin add 1 2";
    let ended = read_script(rt.alloc(), &mut good, &mut out);
    assert!(rt; status(&rt, ended) == ExitCode::SUCCESS);
    let mut bad: &[u8] = b"memory flat [0]\nnone\n";
    let ended = read_script(rt.alloc(), &mut bad, &mut out);
    assert!(rt; status(&rt, ended) == ExitCode::FAILURE);
    assert_eq!(rt;
        out.as_slice(),
        b"memory ready\nword 3\nmemory ready\nerror line 2\n".as_slice()
    );
    Ok(())
}

// A line that asks for a memory or a mover that is not there is a bad line, and changes nothing.
#[test]
fn what_is_not_there(rt: HostRuntime) -> Result<(), Fail> {
    let mut out = Vec::new(rt.alloc());
    let mut script = Script::new(rt.alloc());
    script.take(
        b"send LOAD 0\nmover\nmemory flat [8]\nreserve\nsend LOAD\nwaiting\nmover\n",
        &mut out,
    )?;
    script.take(
        b"send LOAD 0\ntake\nwaiting\nmover\nturn 0\nfill 0 0A\nfill 0 012\nreserve\n",
        &mut out,
    )?;
    assert_eq!(rt;
        out.as_slice(),
        b"error line 1\nerror line 2\nmemory ready\nerror line 4\nerror line 5\nwaiting 0\nmover ready\n\
          error line 8\nerror line 9\nerror line 10\nerror line 11\nerror line 12\nerror line 13\nerror line 14\nchannel 0\n"
            .as_slice()
    );
    Ok(())
}
