//! The laws of placed pieces.

ghost use Rattle.assembler.specs.Laws.{FirstBegins, LabelsFollow, LabelsLie, PiecesStand, ItemsStand, BranchesLead, JumpsLead, CallsLead, ItemsInParts, ReachInParts, PartsReach};

/// Labels stand one behind the other, the first one at the start of the text, and all at multiples of
/// 4 up to the end of the text.
pub fn labels_lie_in_the_text()
    ensures first { FirstBegins }
    ensures follow { LabelsFollow }
    ensures lie { LabelsLie }
{}

/// In an image whose text holds placed pieces, each piece and each item stands at its label, and each
/// branch, jump and call leads exactly to the address of its label.
pub fn placed_items_stand()
    ensures pieces { PiecesStand }
    ensures items { ItemsStand }
    ensures branches { BranchesLead }
    ensures jumps { JumpsLead }
    ensures calls { CallsLead }
{}

/// Items that are put together of two parts have the code of both parts, and are in reach where both
/// parts are.
pub fn items_are_placed_in_parts()
    ensures code { ItemsInParts }
    ensures parts { ReachInParts }
    ensures whole { PartsReach }
{}
