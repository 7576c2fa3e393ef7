//! Names of gates, and what they name.

ghost use Rattle.std.specs.Prelude.{◌≡◌, List, true};
ghost use Rattle.gate_model.specs.Tree.{Tree};
ghost use Rattle.gate_model.specs.Makers.{negation as negation_of_tree};

/// A gate of a net or its negation: the gate's name, counted from 0 in the order of making, and
/// whether it is the gate itself.
#[derive(Clone, Copy, Debug, Default, PartialEq, Eq, PartialOrd, Ord, Hash)]
pub struct Lit {
    /// The gate's name.
    pub name: u64,
    /// Whether the gate isn't negated.
    pub positive: bool,
}

impl Lit {
    ghost use Rattle.gate_net.specs.Trees.{signed_of};
    ghost use Rattle.gate_net.specs.Lits.{negation};

    /// The constant yes, which has the name 0 in every net.
    pub const YES: Lit = Lit {
        name: 0,
        positive: true,
    };

    /// The constant no.
    pub const NO: Lit = Lit {
        name: 0,
        positive: false,
    };

    /// The same gate with the other sign.
    pub fn not(self) -> Lit
        ensures lit { result ≡ negation self }
        ensures name { result.name ≡ self.name }
        ensures tree { (trees : List Tree) → signed_of trees result ≡ negation_of_tree (signed_of trees self) }
    {
        Lit {
            name: self.name,
            positive: !self.positive,
        }
    }

    /// The gate itself.
    pub(crate) fn plain(self) -> Lit
        ensures { result ≡ record { name = self.name; positive = true } }
    {
        Lit {
            name: self.name,
            positive: true,
        }
    }
}

/// The top of a name's tree.
#[derive(Clone, Copy, Debug, PartialEq, Eq, PartialOrd, Ord, Hash)]
pub enum Gate {
    /// Yes.
    Yes,
    /// A bit of a byte of the input: the byte's place, counted from 0, and the bit's number, where
    /// bit 0 is the lowest.
    Bit { place: u32, bit: u8 },
    /// True exactly where both are.
    And(Lit, Lit),
    /// True exactly where one of the two is.
    Xor(Lit, Lit),
}
