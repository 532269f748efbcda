// Bytes, put in pieces.
ghost use Rattle.std.specs.Prelude.{◌≡◌, ◌≤◌, OnOk, OnErr};
ghost use Rattle.bcj_edge.specs.Causes.{Rose, Appends, AppendsFront};

use bcj_cli_telling::put_some;
use bcj_edge::{Failed, Sink};

/// The bytes of a piece.
const PIECE: usize = 4096;

/// Puts bytes in pieces of 4,096 and then what is left of them, where it isn't empty. It stops at the first put that fails.
/// It takes no memory.
pub fn put_pieces<S: Sink>(sink: &mut S, bytes: &[u8]) -> Result<(), Failed>
    ensures ok { OnOk result (Appends (S.taken sink.old) (S.taken sink.new) bytes.now) }
    ensures part { AppendsFront (S.taken sink.old) (S.taken sink.new) bytes.now }
    ensures failed { OnErr result (Rose (S.faults sink.old) (S.faults sink.new)) }
    ensures later { S.faults sink.old ≤ S.faults sink.new }
{
    let mut rest = bytes;
    while rest.len() >= PIECE {
        sink.put(&rest[..PIECE])?;
        rest = &rest[PIECE..];
    }
    put_some(sink, rest)
}
