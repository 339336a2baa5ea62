// Many logs in one run: a batch is frames on standard input, each the length of a log in four bytes, the lowest first, and the log. For
// frame k it prints a line `# k` and the log's listing.
#![tactic(auto)]

use std::io;
use std::io::Read;

// The longest frame: longer than the largest log, so that logs that are too long can be tried.
const MOST: usize = 70_000;

// How many bytes the next frame has. At the end of the input there is none, which is an error as a failed read is.
fn read_length<R: Read>(reader: &mut R) -> io::Result<usize> {
    let mut head = [0; 4];
    reader.read_exact(&mut head)?;
    Ok(u32::from_le_bytes(head) as usize)
}

// A frame's log and its listing, which is printed also where its heading could not be. An error is that the frame was not whole, or that not all
// could be written.
fn print_frame<R: Read>(
    rt: &impl Print,
    reader: &mut R,
    index: u32,
    log: &mut [u8],
    out: &mut [u8],
) -> io::Result<()> {
    reader.read_exact(log)?;
    let heading = println!(rt; "# {index}");
    printing::print(rt, log, out)?;
    heading
}

// Frame after frame, until there is no other or one is too long.
fn print_all<R: Read>(
    rt: &impl Print,
    reader: &mut R,
    space: &mut [u8],
    out: &mut [u8],
) -> io::Result<()> {
    for index in 0..u32::MAX {
        let length = read_length(reader)?;
        if space.len() < length {
            return Ok(());
        }
        print_frame(rt, reader, index, &mut space[..length], out)?;
    }
    Ok(())
}

// A frame that is not whole ends the run, and so does an output that is closed: there is nobody to tell.
fn main(rt: HostRuntime) {
    let mut space = [0; MOST];
    let mut room = printing::room();
    let _ = print_all(&rt, &mut rt.stdin(), &mut space, &mut room);
}
