//! The keys of a plan and of its tables.

ghost use Rattle.std.specs.Prelude.{◌≡◌};
ghost use Rattle.dcc_explain.specs.Flaws.{name_of};

/// A key of a plan, or of one of its tables of tariffs.
#[derive(Clone, Copy, PartialEq, Eq)]
pub enum Key {
    Host,
    Realm,
    Address,
    Shards,
    DefaultGroup,
    Quantum,
    Validity,
    Hold,
    Currency,
    Exponent,
    Tariffs,
    Group,
    Counted,
    Begin,
    Price,
    Block,
}

/// The keys of a plan, in the order in which their faults count.
pub const PLAN_KEYS: [Key; 11] = [
    Key::Host,
    Key::Realm,
    Key::Address,
    Key::Shards,
    Key::DefaultGroup,
    Key::Quantum,
    Key::Validity,
    Key::Hold,
    Key::Currency,
    Key::Exponent,
    Key::Tariffs,
];

/// The keys of a table of tariffs, in that order.
pub const TABLE_KEYS: [Key; 5] = [Key::Group, Key::Counted, Key::Begin, Key::Price, Key::Block];

impl Key {
    /// Its name in a plan file.
    pub fn name(self) -> &'static str
        ensures { result.now ≡ name_of self }
    {
        match self {
            Key::Host => "host",
            Key::Realm => "realm",
            Key::Address => "address",
            Key::Shards => "shards",
            Key::DefaultGroup => "default_group",
            Key::Quantum => "quantum",
            Key::Validity => "validity",
            Key::Hold => "hold",
            Key::Currency => "currency",
            Key::Exponent => "exponent",
            Key::Tariffs => "tariff",
            Key::Group => "group",
            Key::Counted => "unit",
            Key::Begin => "from",
            Key::Price => "price",
            Key::Block => "block",
        }
    }

    /// The type of its values, in words.
    pub fn kind(self) -> &'static str {
        match self {
            Key::Host | Key::Realm | Key::Address | Key::Counted | Key::Begin => "a text",
            Key::Tariffs => "a list",
            _ => "a whole number",
        }
    }

    /// The values that may stand there, in words.
    pub fn wanted(self) -> &'static str {
        match self {
            Key::Host | Key::Realm => "1 to 255 visible characters of ASCII",
            Key::Address => "an IPv4 address such as \"127.0.0.1\", without leading zeros",
            Key::Shards => "1 to 8",
            Key::DefaultGroup | Key::Group => "0 to 4294967295",
            Key::Quantum | Key::Block => "1 to 1000000000000",
            Key::Validity | Key::Hold => "1 to 1000000",
            Key::Currency => "0 to 999",
            Key::Exponent => "-9 to 9",
            Key::Tariffs => "1 to 1000 tables, each under a header [[tariff]]",
            Key::Counted => "\"octets\", \"time\" or \"units\"",
            Key::Begin => {
                "a moment such as \"2025-06-01T00:00:00Z\", from 1970-01-01T00:00:00Z to 2099-12-31T23:59:59Z"
            }
            Key::Price => "0 to 1000000",
        }
    }
}
