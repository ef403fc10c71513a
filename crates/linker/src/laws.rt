//! The laws of linked images.

ghost use Rattle.linker.specs.Laws.{IsEntered, LinkedArePlaced, RowsAreInOrder, RolesAreBranches, RowsAreFound, RolesAreFound};

/// A linked image is entered in its text, which holds the placed pieces. Where the marks of the
/// pieces are what they have to be, its rows are at instructions, in order of address, and its roles
/// are those of the conditional branches of its text, in order.
pub fn linked_marks_are_whole()
    ensures entered { IsEntered }
    ensures placed { LinkedArePlaced }
    ensures rows { RowsAreInOrder }
    ensures roles { RolesAreBranches }
{}

/// Where the marks of the pieces are what they have to be, look-ups at the address of an item find
/// the row and the role that its piece's marks give it, and nothing where they give none.
pub fn items_have_their_marks()
    ensures rows { RowsAreFound }
    ensures roles { RolesAreFound }
{}
