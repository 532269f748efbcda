// Reading and writing whole, over any reader and writer.
ghost use Rattle.std.specs.Prelude.{◌≡◌, ◌≤◌, ◌<◌, length, IfOk, IfSome, IsErrOf, OnOk, OnErr};
ghost use Rattle.bcj_edge.specs.Causes.{Appends, AppendsFront};

use crate::byte_list::Bytes;
use crate::sinks::Failed;
use crate::store::ReadStop;
use std::alloc::Global;
use std::io::{ErrorKind, Read, Write};

/// Reads all that is left, of which at most `limit` bytes and one more are asked for.
pub fn read_whole<S: Read + Drop>(alloc: Global, source: S, limit: u32) -> Result<Bytes, ReadStop>
    ensures ok { IfOk result (λ bytes. length bytes ≤ limit) }
    ensures bytes { IfOk result (λ bytes. IfSome (S.remaining source) (λ xs. bytes ≡ xs)) }
    ensures too_long { IsErrOf result ReadStop.TooLong → IfSome (S.remaining source) (λ xs. limit < length xs) }
{
    let mut bytes = Vec::new(alloc);
    let mut front = source.take(u64::from(limit) + 1);
    match front.read_to_end(&mut bytes) {
        Ok(_) if bytes.len() > limit as usize => Err(ReadStop::TooLong),
        Ok(_) => Ok(Bytes::of(bytes)),
        Err(e) if e.kind() == ErrorKind::OutOfMemory => Err(ReadStop::NoMemory),
        Err(_) => Err(ReadStop::Failed),
    }
}

/// Writes all of the bytes, or a front of them where the writer fails or takes nothing.
pub fn write_whole<W: Write>(writer: &mut W, bytes: &[u8]) -> Result<(), Failed>
    ensures ok { OnOk result (Appends (W.contents writer.old) (W.contents writer.new) bytes.now) }
    ensures front { OnErr result (AppendsFront (W.contents writer.old) (W.contents writer.new) bytes.now) }
{
    let mut rest = bytes;
    for turn in 0..u64::MAX {
        if rest.is_empty() {
            return Ok(());
        }
        match writer.write(rest) {
            Ok(0) => return Err(Failed),
            Ok(count) => rest = &rest[count..],
            Err(e) if e.kind() == ErrorKind::Interrupted => {}
            Err(_) => return Err(Failed),
        }
    }
    Err(Failed)
}
