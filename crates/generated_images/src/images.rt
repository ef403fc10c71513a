//! The image of a kernel.

ghost use Rattle.std.specs.Prelude.{◌≡◌, IfOk, IfSome, IsTrue};
ghost use Rattle.kernel_code.specs.Pieces.{kernel_pieces};
ghost use Rattle.linker.specs.Linked.{linked, AreWithin};

use crate::links::can_be_linked;
use codegen_rv32::generate;
use kernel_ir::Kernel;
use linker::{Image, link};
use rv_semantics::{DATA_START, MEMORY_BYTES};
use std::alloc::{AllocError, Global};

/// The image of a kernel; none where it is too large for the memory or for the reach of jumps.
pub(crate) fn image_of(alloc: Global, kernel: &Kernel) -> Result<Option<Image>, AllocError>
    ensures { IfOk result (λ image. IfSome image (λ image. image ≡ linked (kernel_pieces kernel.now) kernel.now.library)) }
{
    let pieces = generate(alloc, kernel)?;
    let words = kernel.init_words();
    if !can_be_linked(alloc, pieces.as_slice())? || !are_within(words) {
        return Ok(None);
    }
    let image = link(alloc, pieces.as_slice(), words)?;
    Ok(Some(image))
}

/// Whether the words of the library level lie within memory.
fn are_within(words: &[u32]) -> bool
    ensures { IsTrue result → AreWithin words.now }
{
    words.len() <= ((MEMORY_BYTES - DATA_START) / 4) as usize
}
