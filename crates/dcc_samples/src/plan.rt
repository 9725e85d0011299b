//! A plan.

/// The plan of the worked examples: group 10 counts octets at 5 for each 1,000, group 20 seconds at 2 for each 60, group
/// 30 units for nothing, all from the beginning of 2020.
pub const PLAN: &str = "host = \"ocs.example\"
realm = \"example\"
address = \"127.0.0.1\"
shards = 2
default_group = 10
quantum = 100000
validity = 600
hold = 1200
currency = 978
exponent = -2
tariff = [
  { group = 10, unit = \"octets\", from = \"2020-01-01T00:00:00Z\", price = 5, block = 1000 },
  { group = 20, unit = \"time\", from = \"2020-01-01T00:00:00Z\", price = 2, block = 60 },
  { group = 30, unit = \"units\", from = \"2020-01-01T00:00:00Z\", price = 0, block = 1 },
]
";
