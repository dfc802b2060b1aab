//! The words that columns are made of.
ghost use Rattle.std.specs.Prelude.{◌≡◌, ◌<◌, length, map};
ghost use Rattle.app_sample_data.specs.Choices.{word};

/// The names of the regions, in the order of their keys.
pub static REGIONS: [&str; 5] = ["AFRICA", "AMERICA", "ASIA", "EUROPE", "MIDDLE EAST"];

/// The names of the nations, in the order of their keys.
pub static NATIONS: [&str; 25] = [
    "ALGERIA",
    "ARGENTINA",
    "BRAZIL",
    "CANADA",
    "EGYPT",
    "ETHIOPIA",
    "FRANCE",
    "GERMANY",
    "INDIA",
    "INDONESIA",
    "IRAN",
    "IRAQ",
    "JAPAN",
    "JORDAN",
    "KENYA",
    "MOROCCO",
    "MOZAMBIQUE",
    "PERU",
    "CHINA",
    "ROMANIA",
    "SAUDI ARABIA",
    "VIETNAM",
    "RUSSIA",
    "UNITED KINGDOM",
    "UNITED STATES",
];

/// The key of each nation's region.
pub static NATION_REGIONS: [u64; 25] = [
    0, 1, 1, 1, 4, 0, 3, 3, 2, 2, 4, 4, 2, 4, 0, 0, 0, 1, 2, 3, 4, 2, 3, 3, 1,
];

/// The colours of which a part's name has two.
pub static COLOURS: [&str; 8] = [
    "green", "forest", "red", "blue", "pink", "plum", "navy", "snow",
];

/// The first words of a part's type.
pub static TYPE_SIZES: [&str; 6] = ["STANDARD", "SMALL", "MEDIUM", "LARGE", "ECONOMY", "PROMO"];

/// The second words of a part's type.
pub static TYPE_FINISHES: [&str; 5] = ["ANODIZED", "BURNISHED", "PLATED", "POLISHED", "BRUSHED"];

/// The third words of a part's type.
pub static TYPE_METALS: [&str; 5] = ["TIN", "NICKEL", "BRASS", "STEEL", "COPPER"];

/// The first words of a part's container.
pub static CONTAINER_SIZES: [&str; 5] = ["SM", "LG", "MED", "JUMBO", "WRAP"];

/// The second words of a part's container.
pub static CONTAINER_KINDS: [&str; 8] = ["CASE", "BOX", "BAG", "JAR", "PKG", "PACK", "CAN", "DRUM"];

/// A customer's market segments.
pub static MARKET_SEGMENTS: [&str; 5] = [
    "AUTOMOBILE",
    "BUILDING",
    "FURNITURE",
    "MACHINERY",
    "HOUSEHOLD",
];

/// An order's statuses.
pub static ORDER_STATUSES: [&str; 3] = ["F", "O", "P"];

/// An order's priorities.
pub static ORDER_PRIORITIES: [&str; 5] = [
    "1-URGENT",
    "2-HIGH",
    "3-MEDIUM",
    "4-NOT SPECIFIED",
    "5-LOW",
];

/// A line's return flags.
pub static RETURN_FLAGS: [&str; 3] = ["R", "A", "N"];

/// A line's statuses.
pub static LINE_STATUSES: [&str; 2] = ["O", "F"];

/// What a line's shipping is told.
pub static SHIP_INSTRUCTIONS: [&str; 4] = [
    "DELIVER IN PERSON",
    "COLLECT COD",
    "NONE",
    "TAKE BACK RETURN",
];

/// How a line is shipped.
pub static SHIP_MODES: [&str; 7] = ["REG AIR", "AIR", "RAIL", "SHIP", "TRUCK", "MAIL", "FOB"];

/// The word at that place of a list.
#[tactic(auto, using(crate::proofs::Words::word_at))]
pub fn word(words: &[&'static str], place: u64) -> &'static str
    requires { place < length words.now }
    ensures { result.now ≡ word (map (λ w. w.now) words.now) place }
{
    words[place as usize]
}
