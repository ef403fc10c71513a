//! Kernels.

use crate::code::Code;
use cov_base::Seq;

/// A body: its code, and how many words its frame has.
pub struct Body {
    pub code: Code,
    pub width: u32,
}

// Written out: a derived drop is proved anew in each crate above.
impl Drop for Body {
    fn drop(self) {
        let Body { code: _, width: _ } = self;
    }
}

/// First values of a type's scalar parts. Layouts are named by their places in a kernel's list, and
/// each names earlier ones alone.
pub enum Layout {
    /// A scalar with this value.
    Word(i32),
    /// An array: so many components of one layout.
    Array { count: u32, component: u32 },
    /// A record: the layouts of its components, in order.
    Record(Seq<u32>),
}

// Written out: a derived drop is proved anew in each crate above.
impl Drop for Layout {
    fn drop(self) {
        match self {
            Layout::Word(_) => {}
            Layout::Array {
                count: _,
                component: _,
            } => {}
            Layout::Record(_) => {}
        }
    }
}

/// A kernel. Bodies are named by their places. The words of the library-level objects come with their
/// initial values. Exceptions have the numbers from 1 to `exceptions`.
pub struct Kernel {
    pub bodies: Seq<Body>,
    pub main: u32,
    pub layouts: Seq<Layout>,
    pub library: Seq<u32>,
    pub exceptions: u32,
}

// Written out: a derived drop is proved anew in each crate above.
impl Drop for Kernel {
    fn drop(self) {
        let Kernel {
            bodies: _,
            main: _,
            layouts: _,
            library: _,
            exceptions: _,
        } = self;
    }
}

impl Kernel {
    ghost use Rattle.std.specs.Prelude.{◌≡◌};

    /// The words of the library-level objects, in order.
    pub fn init_words(&self) -> &[u32]
        ensures { result.now ≡ self.now.library }
    {
        self.library.as_slice()
    }
}
