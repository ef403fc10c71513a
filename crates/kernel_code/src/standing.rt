//! Where the code of a kernel stands.

ghost use Rattle.kernel_code.specs.Standing.{PiecesHaveLines, PlacedKernelsHold};

/// Where pieces are placed in an image, and the rows and conditions of an object are those of their
/// marks, each piece has its lines, and so the image holds the kernel whose pieces they are.
pub fn placed_kernels_hold()
    ensures pieces { PiecesHaveLines }
    ensures kernel { PlacedKernelsHold }
{}
