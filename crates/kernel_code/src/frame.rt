//! What the code of a body depends on.

ghost use Rattle.std.specs.Prelude.{◌≡◌};
ghost use Rattle.kernel_code.specs.Frame.{sizes_of};

use kernel_ir::Layout;

/// What the code of a body depends on: how many words its frame has, how many exceptions there are,
/// the layouts with how many words each has, and the piece of the first layout.
#[derive(Clone, Copy)]
pub struct Frame<'a> {
    pub width: u32,
    pub exceptions: u32,
    pub layouts: &'a [Layout],
    pub sizes: &'a [u64],
    pub first_layout: u32,
    ghost sized: { sizes.now ≡ sizes_of layouts.now },
}
