// An input read from any reader, and a line written to any writer.
// A read or a write that is interrupted is made again; the turns are bounded, so that each function ends.
#![tactic(auto)]

ghost use Rattle.std.specs.Io.KnownBytes.{Appends, Consumes, IsAtEnd};
ghost use Rattle.std.specs.IoError.{error_kind};
ghost use Rattle.std.specs.Prelude.{◌≢◌, ◌<◌, ◌≤◌, length, take, IfOk, IfErr, OnOk, OnErr};
ghost use Rattle.console.specs.Fronts.{AppendsFront, ConsumesFront};

pub mod limits;

use std::io;
use std::io::{ErrorKind, Read, Write};

// Reads until the buffer is full or the input ends, and answers how many bytes were read.
pub fn fill<R: Read>(reader: &mut R, buffer: &mut [u8]) -> io::Result<usize>
    ensures bound { IfOk result (λ n. n ≤ length buffer.new) }
    ensures read { IfOk result (λ n. Consumes (R.remaining reader.old) (R.remaining reader.new) (take n buffer.new)) }
    ensures end { IfOk result (λ n. n < length buffer.new → IsAtEnd (R.remaining reader.new)) }
    ensures failed { OnErr result (ConsumesFront (R.remaining reader.old) (R.remaining reader.new) buffer.new) }
    ensures retried { IfErr result (λ e. error_kind e ≢ ErrorKind.Interrupted) }
{
    let mut filled = 0;
    for _ in 0..u64::MAX {
        if filled == buffer.len() {
            return Ok(filled);
        }
        match reader.read(&mut buffer[filled..]) {
            Ok(0) => return Ok(filled),
            Ok(count) => filled += count,
            Err(error) if error.kind() == ErrorKind::Interrupted => {}
            Err(error) => return Err(error),
        }
    }
    Err(io::Error::from(ErrorKind::TimedOut))
}

// Writes a line, and flushes.
pub fn write_line<W: Write>(writer: &mut W, line: &[u8]) -> io::Result<()>
    ensures written { OnOk result (Appends (W.contents writer.old) (W.contents writer.new) line.now) }
    ensures failed { OnErr result (AppendsFront (W.contents writer.old) (W.contents writer.new) line.now) }
{
    let mut written = 0;
    for _ in 0..u64::MAX {
        if written == line.len() {
            return writer.flush();
        }
        match writer.write(&line[written..]) {
            Ok(0) => return Err(io::Error::from(ErrorKind::WriteZero)),
            Ok(count) => written += count,
            Err(error) if error.kind() == ErrorKind::Interrupted => {}
            Err(error) => return Err(error),
        }
    }
    Err(io::Error::from(ErrorKind::TimedOut))
}
