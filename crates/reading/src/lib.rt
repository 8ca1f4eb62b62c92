// What both programs read: standard input, into a buffer.
#![tactic(auto)]

ghost use Rattle.std.specs.Prelude.{◌≡◌, ◌≤◌, length};

use std::io::Read;

// Reads until the buffer is full, up to the end, or up to where reading fails, and answers how many bytes these are.
pub fn read_full<R: Read>(reader: &mut R, buffer: &mut [u8]) -> usize
    ensures count { result ≤ length buffer.old }
    ensures len { length buffer.new ≡ length buffer.old }
{
    let mut n = 0;
    // no `for`: how far a read goes is known after it; `read_exact` does not tell how much came before the end
    while n < buffer.len() {
        let more = reader.read(&mut buffer[n..]).unwrap_or(0);
        if more == 0 {
            break;
        }
        n += more;
    }
    n
}
