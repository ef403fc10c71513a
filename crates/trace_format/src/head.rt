//! The front of a trace file, up to the count of its blocks.

ghost use Rattle.std.specs.Prelude.{◌≡◌, ◌<◌, ◌^◌, IfOk};
ghost use Rattle.trace_format.specs.Places.{heading};

use crate::trace::{MAGIC, VERSION};
use cov_base::Digest;
use spelling::{LayerFault, opened, read_digest, read_u32};

/// What stands in front of the blocks: the closing digest of the object, how the run ended, and how
/// many blocks there are.
#[derive(Clone, Copy)]
pub struct Head {
    pub object: Digest,
    pub ending: u32,
    pub blocks: u32,
}

/// The front of a trace file that begins with these bytes.
pub fn head_of(bytes: &[u8]) -> Result<Head, LayerFault>
    ensures head { result ≡ heading bytes.now }
    ensures few { IfOk result (λ head. head.blocks < 2 ^ 32) }
{
    let (version, rest) = opened(&MAGIC, bytes)?;
    if version != VERSION {
        return Err(LayerFault::Version);
    }
    let (object, rest) = read_digest(rest)?;
    let (ending, rest) = read_u32(rest)?;
    let (blocks, _) = read_u32(rest)?;
    Ok(Head {
        object,
        ending,
        blocks,
    })
}
