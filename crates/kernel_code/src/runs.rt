//! What follows for each run of a kernel's code, whether it ended or was cut off.

ghost use Rattle.kernel_code.specs.Implements.{FollowingImplements, CodeImplements, EndingsAreExecutions};

/// Where the run of an image follows the kernel under each fuel, every run under every budget is one
/// of the kernel: if it ends, the kernel ends alike, with the same output and the same events; it
/// does not trap; it is disciplined; and if it is cut off, what it shows is a beginning of what the
/// kernel does. What the kernel does is reached, and its end within a number of instructions that is
/// linear in its cost.
pub fn following_runs_implement()
    ensures { FollowingImplements }
{}

/// So it is with the code of a well-formed kernel within the limits, wherever it stands in an image.
pub fn code_implements_its_kernel()
    ensures { CodeImplements }
{}

/// A run that ended as the kernel did shows the kernel's execution: its ending, output and events.
pub fn endings_are_executions()
    ensures { EndingsAreExecutions }
{}
