// The program that a person runs: it reads a script from standard input, one command a line, carries each command out on
// the library, and answers it on standard output. It ends with status 1 where some line was a bad line.
#![tactic(auto)]

#[cfg(test)]
mod tests;

ghost use Rattle.std.specs.Prelude.{◌≡◌, if◌then◌else◌, is_ok};
ghost use Rattle.std.specs.Process.{exit_status};

use session::script::Script;
use std::alloc::Global;
use std::io;
use std::io::{BufWriter, ErrorKind, Read, Write};
use std::process::ExitCode;

// How many bytes are read at once, at most.
const CHUNK: usize = 16_384;

// The system's number for a stream that is not open.
const NOT_OPEN: i32 = 9;

// Reads what has come and answers the lines that end in it. False at the end of the input.
fn answer_chunk<R: Read, W: Write>(
    input: &mut R,
    chunk: &mut Vec<u8>,
    script: &mut Script,
    out: &mut W,
) -> io::Result<bool> {
    match input.read(chunk.as_mut_slice()) {
        Ok(0) => Ok(false),
        Ok(count) => {
            script.take(&chunk.as_slice()[0..count], out)?;
            Ok(true)
        }
        // Where there is no standard input, the script is empty.
        Err(error) if error.raw_os_error() == Some(NOT_OPEN) => Ok(false),
        Err(error) if error.kind() == ErrorKind::Interrupted => Ok(true),
        Err(error) => Err(error),
    }
}

// Carries out the script that a reader gives, to its end.
fn read_script<R: Read, W: Write>(heap: Global, input: &mut R, out: &mut W) -> io::Result<()> {
    let mut chunk = vec![in heap; 0u8; CHUNK]?;
    let mut script = Script::new(heap);
    // Nothing says that an input ends, and every function must.
    for _ in 0..u64::MAX {
        if !answer_chunk(input, &mut chunk, &mut script, out)? {
            return script.end(out);
        }
    }
    Err(io::Error::other("the input does not end"))
}

fn run(rt: &HostRuntime) -> io::Result<()> {
    let mut input = rt.stdin();
    let mut out = BufWriter::new(rt.alloc(), rt.stdout())?;
    read_script(rt.alloc(), &mut input, &mut out)
}

// Status 0 where the whole script was carried out and no line was a bad line, else 1 and the reason on standard error.
fn status(rt: &HostRuntime, ran: io::Result<()>) -> ExitCode
    ensures { exit_status result ≡ (if is_ok ran then 0 else 1) }
{
    match ran {
        Ok(()) => ExitCode::SUCCESS,
        Err(error) => {
            let _ = eprintln!(rt; "hall: {error}");
            ExitCode::FAILURE
        }
    }
}

fn main(rt: HostRuntime) -> ExitCode {
    status(&rt, run(&rt))
}
