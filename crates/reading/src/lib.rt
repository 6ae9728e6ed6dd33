// Reading the input that a program is run on, into a slice of fixed length: std's `read_exact` refuses a shorter input,
// and its `read_to_end` asks for memory.
#![tactic(auto)]

ghost use Rattle.std.specs.Prelude.{◌<◌, take, length, IfOk, OnOk};
ghost use Rattle.std.specs.Counts.{IsPrefixLen};
ghost use Rattle.std.specs.Io.{ReadsAtMost};
ghost use Rattle.std.specs.Io.KnownBytes.{Consumes, IsAtEnd};

use std::io;
use std::io::Read;

// Reads until `buf` is full, the input ends or a read fails, and answers how many bytes of the input it put at the
// front of `buf`, and the failure. What stands behind these bytes is open.
pub fn fill<R: Read>(reader: &mut R, buf: &mut [u8]) -> (usize, io::Result<()>)
    ensures bound { IsPrefixLen result.0 buf.new }
    ensures bytes { Consumes (R.remaining reader.old) (R.remaining reader.new) (take result.0 buf.new) }
    ensures whole { OnOk result.1 (result.0 < length buf.new → IsAtEnd (R.remaining reader.new)) }
{
    // no index is counted: each read says how much it was
    let mut done = 0;
    while done < buf.len() {
        match reader.read(&mut buf[done..]) {
            Ok(0) => break,
            Ok(n) => done += n,
            Err(e) => return (done, Err(e)),
        }
    }
    (done, Ok(()))
}

// As `fill`, for a caller that wants nothing of an input that cannot be read to its end.
pub fn read_full<R: Read>(reader: &mut R, buf: &mut [u8]) -> io::Result<usize>
    ensures bound { ReadsAtMost result buf.new }
    ensures bytes { IfOk result (λ n. Consumes (R.remaining reader.old) (R.remaining reader.new) (take n buf.new)) }
    ensures whole { IfOk result (λ n. n < length buf.new → IsAtEnd (R.remaining reader.new)) }
{
    let (n, read) = fill(reader, buf);
    read?;
    Ok(n)
}

#[cfg(test)]
mod tests {
    use super::*;
    use std::test::Fail;

    // A longer input is left where the slice is full; a shorter one leaves the slice's end.
    #[test]
    fn reads_in_two_parts(rt: HostRuntime) -> Result<(), Fail> {
        let mut input: &[u8] = b"one two";
        let mut first = [b'-'; 4];
        assert_eq!(rt; read_full(&mut input, &mut first)?, 4);
        assert_eq!(rt; first, *b"one ");
        let mut second = [b'-'; 4];
        assert_eq!(rt; read_full(&mut input, &mut second)?, 3);
        assert_eq!(rt; second, *b"two-");
        assert_eq!(rt; read_full(&mut input, &mut second)?, 0);
        Ok(())
    }
}
