// The program: update records from standard input to the end, and the smallest table to standard output, or one record that tells the
// refusal. What is written for what was read is `program::answer`; here is only the reading and the writing.
#![tactic(auto)]

ghost use Rattle.std.specs.Prelude.{◌≤◌, length, IfOk};

use numbers::MOST_INPUT;
use std::io::{self, Read, Write};

// How much of what lies behind a long input is skipped in one read.
const SKIPPED: usize = 65536;

// Reads until the buffer is full or the input ends: how many bytes came. Each read adds its own count, so no `for` serves.
fn fill<R: Read>(input: &mut R, buffer: &mut [u8]) -> io::Result<usize>
    ensures { IfOk result (λ count. count ≤ length buffer.new) }
{
    let mut done = 0;
    while done < buffer.len() {
        let count = input.read(&mut buffer[done..])?;
        if count == 0 {
            break;
        }
        done += count;
    }
    Ok(done)
}

// What lies behind an input that is too long is read to the end all the same, so that whoever writes it can finish. A proved loop has
// to end, and nothing says that an input does: so the turns are counted, up to a number that no run uses up. A read that fails ends it too.
fn skip_rest<R: Read>(input: &mut R) {
    let mut buffer = [0u8; SKIPPED];
    for _ in 0..u64::MAX {
        match input.read(&mut buffer) {
            Ok(count) if count > 0 => {}
            _ => return,
        }
    }
}

// One byte more than the program takes is read, so that an input that is too long is seen to be.
fn main(rt: HostRuntime) -> io::Result<()> {
    let mut reader = rt.reader();
    let mut input = [0u8; MOST_INPUT + 1];
    let count = fill(&mut reader, &mut input)?;
    skip_rest(&mut reader);
    let mut output = [0u8; MOST_INPUT];
    let written = program::answer(&input[..count], &mut output);
    io::writer(&rt).write_all(&output[..written])
}
