// The night report: reads standard input to its end and writes what the library makes of it.
#![tactic(auto)]

ghost use Rattle.std.specs.Prelude.{◌≤◌, length, IfOk};

use std::io;
use std::io::Read;

// One byte more than the report takes, so that it sees when there is more.
const ROOM: usize = report::INPUT_LIMIT + 1;

// Bytes from a reader to its end, or as many as there is room for; how many.
// Stays by place: a read fills as much as it likes, and the library's `read_to_end` wants a heap.
fn read_full<R: Read>(reader: &mut R, buffer: &mut [u8]) -> io::Result<usize>
    ensures { IfOk result (λ n. n ≤ length buffer.old) }
{
    let mut n = 0;
    while n < buffer.len() {
        let more = reader.read(&mut buffer[n..])?;
        if more == 0 {
            break;
        }
        n += more;
    }
    Ok(n)
}

fn main(rt: HostRuntime) -> io::Result<()> {
    let mut input = [0u8; ROOM];
    let n = read_full(&mut rt.reader(), &mut input)?;
    let text = report::report(&input[..n]);
    rt.write_all(&text.bytes[..text.length])
}
