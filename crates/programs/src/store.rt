// Reading a key and its dummy keys into the store of a deal.
ghost use Rattle.std.specs.Prelude.{◌≡◌, ℕ, ◌≤◌, List, length, vec_len, OnOk};
ghost use Rattle.lines.specs.Readers.{left, standing};
ghost use Rattle.programs.specs.Answers.{Tells};
ghost use Rattle.programs.specs.Keys.{KeyLines, Unkeyed};
ghost use Rattle.sharing.specs.Scheme.{padded, store as stored};

use crate::reading::{push_part, read_block, read_key};
use crate::stop::Stop;
use lines::{DealMark, Reader, Wanted};
use sharing::plan::lanes;
use std::alloc::{AllocError, Global};

// The lines of a key and its dummy keys: the deal's mark, the key's size, and the store of the padded key and the dummy keys.
#[derive(Drop)]
pub(crate) struct KeyText {
    pub(crate) mark: DealMark,
    pub(crate) size: u8,
    pub(crate) store: Vec<u8>,
}

// Puts zeros behind a key, up to a multiple of t.
fn pad(t: u8, numbers: &mut Vec<u8>) -> Result<(), AllocError>
    requires least { 2 ≤ t }
    requires most { vec_len numbers.old ≤ 64 }
    ensures { OnOk result (numbers.new.items ≡ padded t (length numbers.old.items) numbers.old.items) }
{
    let size = numbers.len() as u8;
    numbers.resize(usize::from(t) * lanes(t, size), 0)
}

// Reads a key line, which has this number, and the lines of its t − 1 dummy keys.
pub(crate) fn read_store(
    heap: Global,
    reader: &mut Reader<'_>,
    t: u8,
    line: u16,
) -> Result<KeyText, Stop>
    requires limits { (2 ≤ t) × (t ≤ 8) }
    requires line { line ≤ 100 }
    ensures { Tells result (λ k. (key : List ℕ) × (dummies : List ℕ) × KeyLines t k.mark.number key dummies (left (standing reader.old)) (left (standing reader.new)) × (k.store.items ≡ stored t (length key) key dummies) × (k.size ≡ length key)) (λ a. Unkeyed t line (left (standing reader.old)) a) }
{
    let head = read_key(reader, line)?;
    let mut store = Vec::new(heap);
    push_part(head.key, &mut store)?;
    let size = store.len() as u8;
    pad(t, &mut store)?;
    read_block(
        reader,
        Wanted::a_dummy(t, size),
        line + 1,
        t - 1,
        &mut store,
    )?;
    Ok(KeyText {
        mark: head.mark,
        size,
        store,
    })
}
