//! The laws of a kernel's code.

ghost use Rattle.kernel_code.specs.Behind.{PastTells, PastIsDisciplined};
ghost use Rattle.kernel_code.specs.Whole.{CodeFollows};

/// The events of a past, and that it is disciplined, are those of its transcript in order of time.
pub fn a_past_tells_what_its_transcript_tells()
    ensures told { PastTells }
    ensures disciplined { PastIsDisciplined }
{}

/// Where the code of a well-formed kernel within the limits stands in an image, the image's run on an
/// input follows the kernel at each fuel. If the kernel ends, so does the run, with the same number,
/// output and events, after at most 32 instructions for each unit of the kernel's cost and 8 more; and
/// if the fuel runs out, the run shows the same after at least as many instructions. Both are disciplined.
pub fn code_follows_its_kernel()
    ensures { CodeFollows }
{}
