ghost use Rattle.std.specs.Prelude.{◌≤◌, ◌<◌, length, take, IfOk, IfErr, OnOk};
ghost use Rattle.micro_isa.specs.declared.limits.TheConstants.{LONGEST_IMAGE};
ghost use Rattle.micro_kit.specs.Streams.{Grew, IsWhole, Rose, StoppedBy};

use crate::stream::{Got, Put, Sink, Source};
use std::alloc::Global;
use thiserror::Error;

/// Why a source was not read to its end.
#[derive(Clone, Copy, Debug, PartialEq, Eq, Error)]
pub enum ReadFault {
    #[error("a read failed")]
    Failed,
    #[error("there are more bytes than the limit")]
    TooLong,
    #[error("out of memory")]
    NoMemory,
}

/// A write failed after `taken` bytes had gone out.
#[derive(Clone, Copy, Debug, PartialEq, Eq, Error)]
#[error("a write failed after {taken} bytes")]
pub struct WriteFault {
    pub taken: usize,
}

/// All bytes of a source up to its end, `limit` at most. No more than `limit + 1` are taken from it.
pub fn read_all<I: Source>(
    alloc: Global,
    source: &mut I,
    limit: usize,
) -> Result<Vec<u8>, ReadFault>
    requires { limit ≤ LONGEST_IMAGE }
    ensures ok { IfOk result (λ bytes. IsWhole (I.left source.old) bytes.items (I.left source.new) limit) }
    ensures cause { IfErr result (λ why. StoppedBy why (I.left source.old) (I.left source.new) (I.faults source.old) (I.faults source.new) limit) }
    ensures later { I.faults source.old ≤ I.faults source.new }
{
    let mut bytes = Vec::new(alloc);
    let mut buffer = [0u8; 8192];
    'reads: while bytes.len() <= limit {
        let room = buffer.len().min(limit + 1 - bytes.len());
        match source.read(&mut buffer[..room]) {
            Got::Bytes(n) => {
                if bytes.extend_from_slice(&buffer[..n]).is_err() {
                    return Err(ReadFault::NoMemory);
                }
            }
            Got::End => return Ok(bytes),
            Got::Failed => return Err(ReadFault::Failed),
        }
    }
    Err(ReadFault::TooLong)
}

/// Writes all bytes.
#[tactic(auto, using(crate::proofs::Pieces::Grew_more))]
pub fn write_all<O: Sink>(sink: &mut O, bytes: &[u8]) -> Result<(), WriteFault>
    ensures ok { OnOk result (Grew (O.wrote sink.old) bytes.now (O.wrote sink.new)) }

    // A fault leaves the first `taken` bytes written.
    ensures part { IfErr result (λ why. why.taken < length bytes.now) }
    ensures prefix { IfErr result (λ why. Grew (O.wrote sink.old) (take why.taken bytes.now) (O.wrote sink.new)) }
    ensures cause { IfErr result (λ why. Rose (O.faults sink.old) (O.faults sink.new)) }
    ensures later { O.faults sink.old ≤ O.faults sink.new }
{
    let mut taken = 0;
    'writes: while taken < bytes.len() {
        match sink.write(&bytes[taken..]) {
            Put::Took(n) => taken += n,
            Put::Failed => return Err(WriteFault { taken }),
        }
    }
    Ok(())
}
