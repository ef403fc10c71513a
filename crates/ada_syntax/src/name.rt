//! Identifiers and names (Ada RM 2012, 2.3, 4.1).

use crate::expr::Expr;
use cov_base::{Bytes, Pos};
use std::marker::Model;

/// An identifier, as it is spelled in the source. Its case counts nothing.
pub struct Identifier {
    pub pos: Pos,
    pub text: Bytes,
}

// Written out: a derived drop is proved anew in each crate above.
impl Drop for Identifier {
    fn drop(self) {
        let Identifier { pos: _, text: _ } = self;
    }
}

/// A name: an identifier, and what stands behind it, from the left.
#[cycle(expr)]
pub struct Name {
    pub prefix: Identifier,
    pub suffixes: Vec<Suffix>,
}

// Written out: a derived drop is proved anew in each crate above.
impl Drop for Name {
    #[cycle(expr)]
    fn drop(self) {
        let Name {
            prefix: _,
            suffixes: _,
        } = self;
    }
}

impl Model for Name {
    ghost use Rattle.ada_syntax.specs.Tree as tree;
    ghost use Rattle.ada_syntax.specs.TreeCode.{coded_name};

    ghost Value = { tree.Name };

    ghost coded = { coded_name };

    ghost use Rattle.ada_syntax.specs.TreeView.{name_of};

    ghost view = { name_of };

    ghost size = { tree.name_size };

    ghost use Rattle.ada_syntax.specs.TreeSize.{name_is_larger};

    ghost size_decreases = { λ a h. name_is_larger a };
}

impl Name {
    ghost use Rattle.std.specs.Prelude.{◌≡◌};
    ghost use Rattle.ada_syntax.specs.Tree as tree;
    ghost use Rattle.ada_syntax.specs.TreeView.{with_suffixes};

    /// An identifier, and what stands behind it.
    pub fn new(prefix: Identifier, suffixes: Vec<Suffix>) -> Name
        ensures { result ≡ with_suffixes (tree.simple prefix) suffixes.items }
    {
        Name { prefix, suffixes }
    }

    /// The place of the first token.
    #[tactic(auto, using(crate::proofs::Places::places))]
    pub fn pos(&self) -> Pos
        ensures { result ≡ tree.name_pos self.now }
    {
        self.prefix.pos
    }
}

/// What stands behind a part of a name.
#[cycle(expr)]
pub enum Suffix {
    /// `. id`: a part of a package, or a component of a record (RM 4.1.3).
    Selected(Identifier),
    /// `' id`: an attribute (RM 4.1.4).
    Attribute(Identifier),
    /// `( expr {, expr} )`: an index, a conversion or a call (RM 4.1.1, 4.6, 6.4). At least one.
    Applied(Vec<Expr>),
}

// Written out: a derived drop is proved anew in each crate above.
impl Drop for Suffix {
    #[cycle(expr)]
    fn drop(self) {
        match self {
            Suffix::Selected(_) => {}
            Suffix::Attribute(_) => {}
            Suffix::Applied(_) => {}
        }
    }
}
