//! Images of kernels, which `generated_images` builds and runs.
//!
//! | Line | Answers |
//! |---|---|
//! | `image STEP; STEP ..` | what the steps that ask are answered |

use crate::reply::Reply;
use cov_base::Failure;
use generated_images::{Draft, answer};
use std::alloc::Global;

/// Puts what steps are answered, or why one of them is none.
pub(crate) fn image(alloc: Global, draft: &mut Draft, out: &mut Reply, steps: &str) {
    let mut text = String::new(alloc);
    match answer(alloc, draft, &mut text, steps) {
        Ok(()) => out.put(text.as_str()),
        Err(Failure::Fault(fault)) => out.refuse(fault),
        Err(Failure::WantOfMemory) => out.lack_memory(),
    }
}
