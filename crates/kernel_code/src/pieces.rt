//! The pieces of a kernel.

ghost use Rattle.kernel_code.specs.Pieces.{PiecesAreMarked, PiecesCanBePlaced, PlacedPiecesImplement};

/// The pieces of a kernel are those that its image has to hold. Their marks are what the assembler
/// asks for, and name the statements that start in the kernel and the conditions that are evaluated
/// in it, in order.
pub fn kernel_pieces_are_marked()
    ensures { PiecesAreMarked }
{}

/// The pieces of a well-formed kernel within its limits can be placed: each branch, jump and call is
/// in reach of its label, and the text ends before the data.
pub fn kernel_pieces_can_be_placed()
    ensures { PiecesCanBePlaced }
{}

/// Where the pieces of a kernel are placed in an image, and an object says of the address of each
/// item what the marks of its piece do, every run of the image is one of the kernel.
pub fn placed_pieces_implement_their_kernel()
    ensures { PlacedPiecesImplement }
{}
