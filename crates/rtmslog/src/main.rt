// `rtmslog`: a call log on standard input, its listing on standard output.
#![tactic(auto)]

ghost use Rattle.std.specs.Prelude.{◌≤◌, IfOk, length};

use std::io;
use std::io::Read;

// The input to its end, or until the buffer is full: how long it is. (A loop, since how many turns it takes the reader alone knows, and what std has to
// read to the end fills a Vec: there is no heap.)
fn read_all<R: Read>(reader: &mut R, input: &mut [u8]) -> io::Result<usize>
    requires { length input.old ≤ 65521 }
    ensures { IfOk result (λ read. read ≤ length input.new) }
{
    let mut length = 0;
    loop {
        let count = reader.read(&mut input[length..])?;
        if count == 0 {
            return Ok(length);
        }
        length += count;
    }
}

// A failed read prints nothing, and an output that is closed ends the listing where it is: there is nobody to tell.
fn main(rt: HostRuntime) {
    // One byte more than the largest log has is enough to know that an input is too long.
    let mut space = [0; 65_521];
    let mut room = printing::room();
    if let Ok(length) = read_all(&mut rt.stdin(), &mut space) {
        let _ = printing::print(&rt, &space[..length], &mut room);
    }
}
