//! The blocks of a text: from any of its words to the first control transfer from there on.

ghost use Rattle.std.specs.Prelude.{◌≡◌, ◌≤◌, length};
ghost use Rattle.decision_map.specs.Blocks.{block_end};

use crate::kind::WordKind;
use crate::places::place_of;

/// Where the block ends that starts at an address. There is no block where something stops before a
/// control transfer comes.
pub(crate) fn block_end(kinds: &[WordKind], start: u32) -> Option<u32>
    requires { length kinds.now ≤ 4194304 }
    ensures { result ≡ block_end kinds.now start }
{
    let place = place_of(start)?;
    let mut pc = start;
    for kind in kinds.get(place..)? {
        match kind {
            WordKind::GoesOn => pc += 4,
            WordKind::Transfer | WordKind::Branch | WordKind::HistoryBranch => return Some(pc),
            WordKind::Stop => return None,
        }
    }
    None
}
