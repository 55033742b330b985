/// What a text says about zones.
#[derive(Clone, Copy, PartialEq, Eq, Debug)]
pub enum ZoneKind {
    /// No zones: the text is read by eye.
    Plain,
    /// All zones from 0 to 999.
    All,
    /// The zones that the text lists.
    Listed,
}

/// The zones of a text: zone z is bit z mod 64 of word z div 64.
// not words within each kind: every kind has words and a count, so a zone is looked up without asking the kind
#[derive(Clone, Copy, PartialEq, Eq, Debug)]
pub struct Zones {
    pub kind: ZoneKind,
    pub words: [u64; 16],
    /// The number of zones that are set.
    pub count: u32,
}

/// A period, its beginning and end in seconds since 01.01.0001 00:00:00.
#[derive(Clone, Copy, PartialEq, Eq, Debug)]
pub struct Period {
    pub begin: u64,
    pub end: u64,
}
