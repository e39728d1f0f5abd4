//! Whole texts from a source and to a sink.

ghost use Rattle.std.specs.Prelude.{◌≡◌, take, IfSome, IfOk};
ghost use Rattle.clk_packet.specs.Bytes.{Takes, FailsToRead, Wrote};

use crate::fault::Fault;
use crate::io::{Sink, Source};
use std::alloc::{AllocError, Global};

/// How many bytes are read at a time.
const CHUNK: usize = 16_384;

/// The block size in bytes to which `keep_freed` raises glibc's mmap threshold. Of the blocks that a run allocates, only a log is larger,
/// and the text of a trace of more than 16 MiB.
const KEPT: usize = 16 << 20;

/// Reads a source to its end, but no more than `most` bytes. Fault 1 if an allocation fails, and fault 19 if the source fails.
pub fn read_up_to<R: Source>(alloc: Global, reader: &mut R, most: usize) -> Result<Vec<u8>, Fault>
    ensures bytes { IfOk result (λ bytes. IfSome (R.Source.remaining reader.old) (λ all. bytes.items ≡ take most all)) }
    ensures taken { Takes most (R.Source.remaining reader.old) (R.Source.remaining reader.new) }
    ensures fault { FailsToRead result (R.Source.failures reader.old) (R.Source.failures reader.new) }
{
    let mut bytes = Vec::new(alloc);
    let mut chunk = [0; CHUNK];
    while bytes.len() < most {
        let room = (most - bytes.len()).min(CHUNK);
        let Ok(count) = reader.read(&mut chunk[..room]) else {
            return Err(Fault::Read);
        };
        if count == 0 {
            return Ok(bytes);
        }
        bytes.extend_from_slice(&chunk[..count])?;
    }
    Ok(bytes)
}

/// Writes a whole text. Fault 20 if the sink fails: it has then taken a front of the text.
pub fn write_all<W: Sink>(writer: &mut W, text: &[u8]) -> Result<(), Fault>
    ensures { Wrote (W.Sink.taken writer.old) (W.Sink.taken writer.new)
        (W.Sink.failures writer.old) (W.Sink.failures writer.new) result text.now }
{
    let mut rest = text;
    while !rest.is_empty() {
        let Ok(count) = writer.write(rest) else {
            return Err(Fault::Write);
        };
        (_, rest) = rest.split_at(count);
    }
    Ok(())
}

/// Raises glibc's mmap threshold by freeing a 16 MiB block, so that smaller blocks are kept when they are freed, for later allocations. The
/// system provides a new block page by page, as it is first written: a program that allocates and frees many large blocks spends much of
/// its time on that. Don't call it if one block grows long after the others, as a log does.
///
/// It changes nothing but speed, for the whole process until it ends. If the allocation fails, it does nothing.
pub fn keep_freed(alloc: Global) {
    let _block: Result<Vec<u8>, AllocError> = Vec::with_capacity(alloc, KEPT);
}

/// Frees the memory of a text. The block is shrunk first, since freeing a large block raises glibc's mmap threshold, and a log of up to
/// that size then grows by copies. A program that keeps no log raises the threshold on purpose (`keep_freed`).
pub fn let_go(text: Vec<u8>) {
    let mut text = text;
    text.clear();
    text.shrink_to(1);
}
