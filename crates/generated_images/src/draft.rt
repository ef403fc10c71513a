//! Kernels that steps build, part by part.

use crate::fault::{Answer, StepFault};
use crate::images::image_of;
use cov_base::{DecId, Failure, InstId, Seq};
use kernel_ir::{Body, Code, Edge, Kernel, Layout, Node, Op, Simple, Slot};
use linker::Image;
use std::alloc::{AllocError, Global};
use std::mem;

/// How many exceptions each kernel has.
pub(crate) const EXCEPTIONS: u32 = 5;

/// Code that is part of no kernel yet, the latest last, the conditions that are part of no decision,
/// the bodies of the next kernel, and the image of the latest one.
pub struct Draft {
    codes: Vec<Code>,
    conditions: Vec<Node>,
    bodies: Vec<Body>,
    image: Option<Image>,
}

// Written out: a derived drop is proved anew in each crate above.
impl Drop for Draft {
    fn drop(self) {
        let Draft {
            codes: _,
            conditions: _,
            bodies: _,
            image: _,
        } = self;
    }
}

/// A word, an array of two words, and a record of such an array and a word.
fn layouts(alloc: Global) -> Result<Vec<Layout>, AllocError> {
    let components = Seq::from(vec![in alloc; 1, 0]?);
    Ok(vec![in alloc;
        Layout::Word(7),
        Layout::Array {
            count: 2,
            component: 0
        },
        Layout::Record(components),
    ]?)
}

impl Draft {
    /// Nothing is built yet.
    pub fn new(alloc: Global) -> Draft {
        Draft {
            codes: Vec::new(alloc),
            conditions: Vec::new(alloc),
            bodies: Vec::new(alloc),
            image: None,
        }
    }

    /// The image of the latest kernel.
    pub(crate) fn image(&self) -> Result<&Image, Failure<StepFault>> {
        match &self.image {
            Some(image) => Ok(image),
            None => Err(Failure::Fault(StepFault::Image)),
        }
    }

    /// Begins code.
    pub(crate) fn begin(&mut self, alloc: Global) -> Answer {
        self.codes.push(Code::new(alloc))?;
        Ok(())
    }

    /// Adds an operation that holds no others to the latest code.
    pub(crate) fn add_simple(&mut self, simple: Simple) -> Answer {
        self.add(Op::Simple(simple))
    }

    /// Adds an operation to the latest code.
    pub(crate) fn add(&mut self, op: Op) -> Answer {
        match self.codes.last_mut() {
            Some(code) => {
                code.push(op)?;
                Ok(())
            }
            None => Err(Failure::Fault(StepFault::Code)),
        }
    }

    /// Takes the latest code away.
    fn take(&mut self) -> Result<Code, Failure<StepFault>> {
        self.codes.pop().ok_or(Failure::Fault(StepFault::Code))
    }

    /// Takes the latest two codes away.
    fn take_two(&mut self) -> Result<(Code, Code), Failure<StepFault>> {
        let second = self.take()?;
        let first = self.take()?;
        Ok((first, second))
    }

    /// Makes the latest two codes the ways of a choice.
    pub(crate) fn choose(&mut self, slot: Slot) -> Answer {
        let (if_true, if_false) = self.take_two()?;
        self.add(Op::Choose {
            slot,
            if_true,
            if_false,
        })
    }

    /// Makes the latest two codes a body and its handler.
    pub(crate) fn catch(&mut self, slot: Slot) -> Answer {
        let (body, handler) = self.take_two()?;
        self.add(Op::Catch {
            body,
            slot,
            handler,
        })
    }

    /// Makes the latest code the body of a loop.
    pub(crate) fn repeat(&mut self) -> Answer {
        let turn = self.take()?;
        self.add(Op::Forever(turn))
    }

    /// Makes the latest code the operand of a condition.
    pub(crate) fn condition(&mut self, slot: Slot, on_true: Edge, on_false: Edge) -> Answer {
        let operand = self.take()?;
        self.conditions.push(Node {
            operand,
            slot,
            on_true,
            on_false,
        })?;
        Ok(())
    }

    /// Makes the conditions a decision.
    pub(crate) fn decide(&mut self, alloc: Global, decision: u32, slot: Slot) -> Answer {
        let nodes = mem::replace(&mut self.conditions, Vec::new(alloc));
        self.add(Op::Decide {
            decision: DecId(decision),
            instance: InstId(0),
            slot,
            nodes,
        })
    }

    /// Makes the latest code a body of the kernel.
    pub(crate) fn end_body(&mut self, width: u32) -> Answer {
        let code = self.take()?;
        self.bodies.push(Body { code, width })?;
        Ok(())
    }

    /// A kernel of the bodies.
    fn kernel(&mut self, alloc: Global) -> Result<Kernel, AllocError> {
        let layouts = layouts(alloc)?;
        let library = vec![in alloc; 3, 4, 5, 6]?;
        let bodies = mem::replace(&mut self.bodies, Vec::new(alloc));
        Ok(Kernel {
            bodies: Seq::from(bodies),
            main: 0,
            layouts: Seq::from(layouts),
            library: Seq::from(library),
            exceptions: EXCEPTIONS,
        })
    }

    /// Compiles and links the bodies.
    pub(crate) fn link(&mut self, alloc: Global) -> Answer {
        let kernel = self.kernel(alloc)?;
        self.image = image_of(alloc, &kernel)?;
        Ok(())
    }
}
