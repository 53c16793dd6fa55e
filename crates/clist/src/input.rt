// Standard input, read into a buffer.
ghost use Rattle.std.specs.Prelude.{◌-◌, ◌≤◌, ◌<◌, ◌≡◌, length, take};
ghost use Rattle.text.specs.Put.{Put};
ghost use Rattle.clist.specs.Input.{CountsRead, part_read};

use std::io;
use std::io::Read;
use text::write::put_bytes;

// Returns how many bytes a read put at the start of part, by what it answered; 0 is the end of the input.
fn part_read(got: io::Result<usize>, part: &[u8]) -> io::Result<usize>
    ensures answer { result ≡ part_read got (length part.now) }
    ensures inside { CountsRead result part.now }
{
    Ok(got?.min(part.len()))
}

// Puts a part of the input behind the bytes that were read before, as much as there is room for; gives how many bytes there are then.
// Precondition: there is room, which `read_parts` has tested, and the part has a byte, which `read_parts` has tested too.
fn take_part(buf: &mut [u8], done: usize, part: &[u8]) -> usize
    requires { (done < length buf.old) × (1 ≤ length part.now) }
    ensures bytes { Put buf.old done (take (length buf.old - done) part.now) result buf.new }
    ensures further { (done < result) × (result ≤ length buf.old) }
{
    let room = buf.len() - done;
    if room < part.len() {
        return put_bytes(buf, done, &part[..room]);
    }
    put_bytes(buf, done, part)
}

// Reads until the buffer is full, the input ends or a read fails, and returns how many bytes it put at the start of the buffer; or the error
// of the read that failed. The parts go by way of a second buffer.
pub fn read_parts(rt: &HostRuntime, buf: &mut [u8], part: &mut [u8]) -> io::Result<usize>
    ensures { CountsRead result buf.new }
{
    let mut stdin = rt.stdin();
    let mut done = 0;
    while done < buf.len() {
        let got = stdin.read(part);
        let count = part_read(got, part)?;
        if count == 0 {
            return Ok(done);
        }
        done = take_part(buf, done, &part[..count]);
    }
    Ok(done)
}
