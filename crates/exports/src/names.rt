//! Names of members that are repeated in an object, noted while it is read.
ghost use Rattle.std.specs.Prelude.{◌≡◌, List, ℕ};
ghost use Rattle.json.specs.Json.{Json, Members, member, no_members};
ghost use Rattle.exports.specs.Repeating.{AreMet, EntryMet, ExportMet, IsMet, entry_twice, root_twice, twice, two_twice};

/// How often a name was met in an object.
#[derive(Clone, Copy, Debug, Drop)]
pub enum Met {
    Never,
    Once,
    Twice,
}

impl Met {
    /// The same with a member of this name more.
    fn with(self, name: &str, more: &str) -> Met
        ensures { (so_far : Members → Members) (j : Json) → IsMet name.now so_far self → IsMet name.now (λ rest. so_far (member more.now j rest)) result }
    {
        if name != more {
            return self;
        }
        match self {
            Met::Never => Met::Once,
            Met::Once => Met::Twice,
            Met::Twice => Met::Twice,
        }
    }

    /// Whether it was met twice.
    fn is_twice(self) -> bool
        ensures { (name : List ℕ) (so_far : Members → Members) → IsMet name so_far self → twice name (so_far no_members) ≡ result }
    {
        match self {
            Met::Never => false,
            Met::Once => false,
            Met::Twice => true,
        }
    }
}

/// How often two names were met in an object.
#[derive(Clone, Copy, Debug, Drop)]
pub struct Names {
    one: Met,
    other: Met,
}

impl Names {
    /// Neither was met.
    pub(crate) const NONE: Names = Names {
        one: Met::Never,
        other: Met::Never,
    };

    /// The same with a member of this name more.
    pub(crate) fn with(self, one: &str, other: &str, more: &str) -> Names
        ensures { (so_far : Members → Members) (j : Json) → AreMet one.now other.now so_far self → AreMet one.now other.now (λ rest. so_far (member more.now j rest)) result }
    {
        Names {
            one: self.one.with(one, more),
            other: self.other.with(other, more),
        }
    }

    /// Whether one of them was met twice.
    pub(crate) fn repeat(self) -> bool
        ensures { (one other : List ℕ) (so_far : Members → Members) → AreMet one other so_far self → result ≡ two_twice one other (so_far no_members) }
    {
        self.one.is_twice() || self.other.is_twice()
    }
}

/// How often the names that are read were met in an entry: `asn` and `prefix`, `maxLength` and `expires`.
#[derive(Clone, Copy, Debug, Drop)]
pub struct EntryNames {
    origin: Names,
    rest: Names,
}

impl EntryNames {
    /// None was met.
    pub(crate) const NONE: EntryNames = EntryNames {
        origin: Names::NONE,
        rest: Names::NONE,
    };

    /// The same with a member of this name more.
    pub(crate) fn with(self, more: &str) -> EntryNames
        ensures { (so_far : Members → Members) (j : Json) → EntryMet so_far self → EntryMet (λ rest. so_far (member more.now j rest)) result }
    {
        EntryNames {
            origin: self.origin.with("asn", "prefix", more),
            rest: self.rest.with("maxLength", "expires", more),
        }
    }

    /// Whether one of them was met twice.
    pub(crate) fn repeat(self) -> bool
        ensures { (so_far : Members → Members) → EntryMet so_far self → result ≡ entry_twice (so_far no_members) }
    {
        self.origin.repeat() || self.rest.repeat()
    }
}

/// How often the names that are read were met in an export: `roas` and `metadata`, and those of the arrays that are counted.
#[derive(Clone, Copy, Debug, Drop)]
pub struct ExportNames {
    parts: Names,
    aspas: Met,
    keys: Names,
}

impl ExportNames {
    /// None was met.
    pub(crate) const NONE: ExportNames = ExportNames {
        parts: Names::NONE,
        aspas: Met::Never,
        keys: Names::NONE,
    };

    /// The same with a member of this name more.
    pub(crate) fn with(self, more: &str) -> ExportNames
        ensures { (so_far : Members → Members) (j : Json) → ExportMet so_far self → ExportMet (λ rest. so_far (member more.now j rest)) result }
    {
        ExportNames {
            parts: self.parts.with("roas", "metadata", more),
            aspas: self.aspas.with("aspas", more),
            keys: self.keys.with("bgpsec_keys", "routerKeys", more),
        }
    }

    /// Whether one of them was met twice.
    pub(crate) fn repeat(self) -> bool
        ensures { (so_far : Members → Members) → ExportMet so_far self → result ≡ root_twice (so_far no_members) }
    {
        self.parts.repeat() || (self.aspas.is_twice() || self.keys.repeat())
    }
}
