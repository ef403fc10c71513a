//! How many words layouts have.

ghost use Rattle.std.specs.Prelude.{◌≡◌, ◌*◌, IfOk, length};
ghost use Rattle.kernel_ir.specs.Layouts.{content_in};
ghost use Rattle.kernel_code.specs.Frame.{sizes_of, size_at, size_of, sum_of};
ghost use Rattle.kernel_code.specs.Set.{setting_of};

use crate::frame::Frame;
use cov_base::{size_of_all, size_of_both};
use kernel_ir::Layout;
use std::alloc::{AllocError, Global};

/// How many words a layout of a frame has.
#[tactic(auto, using(crate::proofs::Lines::size_at))]
pub(crate) fn layout_words(frame: &Frame<'_>, layout: u32) -> u64
    ensures { result ≡ length (content_in (setting_of frame.now).layouts layout).words }
{
    word_count(frame.sizes, layout)
}

/// How many words the layout with this number has.
fn word_count(sizes: &[u64], layout: u32) -> u64
    ensures { result ≡ size_at sizes.now layout }
{
    sizes.get(layout as usize).copied().unwrap_or(0)
}

/// How many words several layouts have.
fn sum_of(sizes: &[u64], layouts: &[u32]) -> Result<u64, AllocError>
    ensures { IfOk result (λ sum. sum ≡ sum_of sizes.now layouts.now) }
{
    let mut sum: u64 = 0;
    for layout in layouts {
        sum = size_of_both(sum, word_count(sizes, *layout))?;
    }
    Ok(sum)
}

/// How many words a layout has that is built of others.
fn size_of(sizes: &[u64], layout: &Layout) -> Result<u64, AllocError>
    ensures { IfOk result (λ size. size ≡ size_of sizes.now layout.now) }
{
    match layout {
        Layout::Word(_) => Ok(1),
        Layout::Array { count, component } => {
            size_of_all(u64::from(*count), word_count(sizes, *component))
        }
        Layout::Record(components) => sum_of(sizes, components.as_slice()),
    }
}

/// How many words each layout has.
#[tactic(auto, using(crate::proofs::Lines::sizes_are))]
pub fn sizes_of(alloc: Global, layouts: &[Layout]) -> Result<Vec<u64>, AllocError>
    ensures { IfOk result (λ sizes. sizes.items ≡ sizes_of layouts.now) }
{
    let mut sizes = Vec::new(alloc);
    for layout in layouts {
        let size = size_of(sizes.as_slice(), layout)?;
        sizes.push(size)?;
    }
    Ok(sizes)
}
