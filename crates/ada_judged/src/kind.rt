//! What expressions fit (Ada RM 2012, 3.5, 4.6, 8.6).

ghost use Rattle.std.specs.Prelude.{◌≡◌, option_map};
ghost use Rattle.ada_entities.specs.ada_rules.specs.Denoted as names;
ghost use Rattle.ada_entities.specs.ada_rules.specs.Types as rules;
ghost use Rattle.ada_entities.specs.Views.{TypeTables, type_of};
ghost use Rattle.ada_judged.specs.Views.{kind_of, where_fits};

use ada_entities::AdaType;

/// What an expression fits: every integer type, as a numeral does, or one type.
#[derive(Clone, Copy)]
pub enum Kind {
    Universal,
    Of(AdaType),
}

/// A kind of one type, if there is one.
fn of_type(of: AdaType, fits: bool) -> Option<Kind>
    ensures { (k : TypeTables) → option_map (kind_of k) result ≡ where_fits fits (type_of k of) }
{
    if fits { Some(Kind::Of(of)) } else { None }
}

impl Kind {
    /// Whether it is of integers.
    pub fn is_integral(self) -> bool
        ensures { (k : TypeTables) → result ≡ rules.is_integral (kind_of k self) }
    {
        match self {
            Kind::Universal => true,
            Kind::Of(of) => of.is_integer(),
        }
    }

    /// Whether it is of a discrete type.
    pub fn is_discrete(self) -> bool
        ensures { (k : TypeTables) → result ≡ rules.is_discrete (kind_of k self) }
    {
        match self {
            Kind::Universal => true,
            Kind::Of(of) => of.is_scalar(),
        }
    }

    /// Whether it is of Boolean.
    pub fn is_boolean(self) -> bool
        ensures { (k : TypeTables) → result ≡ rules.is_boolean (kind_of k self) }
    {
        match self {
            Kind::Universal => false,
            Kind::Of(of) => of.is_same(AdaType::boolean()),
        }
    }

    /// Whether what fits this may stand where a type is asked for.
    pub fn fits(self, of: AdaType) -> bool
        ensures { (k : TypeTables) → result ≡ rules.fits (type_of k of) (kind_of k self) }
    {
        match self {
            Kind::Universal => of.is_integer(),
            Kind::Of(own) => of.is_same(own),
        }
    }

    /// What two operands of one type fit together.
    pub fn common(self, other: Kind) -> Option<Kind>
        ensures { (k : TypeTables) → option_map (kind_of k) result ≡ rules.common (kind_of k self) (kind_of k other) }
    {
        match (self, other) {
            (Kind::Universal, Kind::Universal) => Some(Kind::Universal),
            (Kind::Universal, Kind::Of(of)) => of_type(of, of.is_integer()),
            (Kind::Of(of), Kind::Universal) => of_type(of, of.is_integer()),
            (Kind::Of(left), Kind::Of(right)) => of_type(left, left.is_same(right)),
        }
    }

    /// The type: where nothing fixes an integer type it is Integer.
    pub fn settled(self) -> AdaType
        ensures { (k : TypeTables) → type_of k result ≡ rules.settled (kind_of k self) }
    {
        match self {
            Kind::Universal => AdaType::integer(),
            Kind::Of(of) => of,
        }
    }

    /// Whether what fits this is converted to a type: between integer types, or within one discrete
    /// type (RM 4.6).
    pub fn converts(self, of: AdaType) -> bool
        ensures { (k : TypeTables) → result ≡ names.converts (type_of k of) (kind_of k self) }
    {
        of.is_scalar() && ((of.is_integer() && self.is_integral()) || self.fits(of))
    }
}
