//! Words as the bytes of memory, little-endian.

ghost use Rattle.std.specs.Prelude.{◌≡◌, ◌++◌, replicate, IfOk, OnOk};
ghost use Rattle.bcj_elf.specs.Spelling as elf;

use bcj_edge::Bytes;
use byteorder::{ByteOrder, LittleEndian};
use std::alloc::{AllocError, Global};

/// The bytes of a word.
const WORD_SIZE: usize = 4;

#[tactic(auto, unfolding(bcj_elf::specs::Spelling::word))]
fn put_word(word: u32, out: &mut Vec<u8>) -> Result<(), AllocError>
    ensures { OnOk result (out.new.items ≡ out.old.items ++ elf.word word) }
{
    let mut bytes = [0; WORD_SIZE];
    LittleEndian::write_u32(&mut bytes, word);
    out.extend_from_slice(&bytes)
}

fn put_words(words: &[u32], out: &mut Vec<u8>) -> Result<(), AllocError>
    ensures { OnOk result (out.new.items ≡ out.old.items ++ elf.words words.now) }
{
    for word in words {
        put_word(*word, out)?;
    }
    Ok(())
}

/// So many words of 0.
fn put_zeros(count: u32, out: &mut Vec<u8>) -> Result<(), AllocError>
    ensures { OnOk result (out.new.items ≡ out.old.items ++ elf.words (replicate count 0)) }
{
    match out.len().checked_add(WORD_SIZE * count as usize) {
        Some(end) => {
            out.resize(end, 0)?;
            Ok(())
        }
        None => Err(AllocError),
    }
}

/// These words, and behind them the heap and the stack, each so many words of 0.
pub fn memory_of(alloc: Global, words: &[u32], heap: u32, stack: u32) -> Result<Bytes, AllocError>
    ensures { IfOk result (λ memory. memory ≡ elf.words (words.now ++ (replicate heap 0 ++ replicate stack 0))) }
{
    let mut bytes = Vec::new(alloc);
    put_words(words, &mut bytes)?;
    put_zeros(heap, &mut bytes)?;
    put_zeros(stack, &mut bytes)?;
    Ok(Bytes::of(bytes))
}
