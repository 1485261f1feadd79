// Input, read into lent bytes.
ghost use Rattle.text.specs.Counts.{IsPrefixLen};

use std::io::Read;

// Reads until buf is full, the input ends or a read fails, and answers how many bytes it put at the start of buf. It asks for no byte behind
// those that buf has room for.
pub fn read_full<R: Read>(input: &mut R, buf: &mut [u8]) -> usize
    ensures { IsPrefixLen result buf.new }
{
    let mut done = 0;
    while done < buf.len() {
        let n = input.read(&mut buf[done..]).unwrap_or(0);
        if n == 0 {
            break;
        }
        done += n;
    }
    done
}
