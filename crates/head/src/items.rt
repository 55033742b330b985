use calendar::Date;

/// When a ticket was made: a minute, as somebody hands it in.
#[derive(Clone, Copy)]
pub struct Edition {
    pub date: Date,
    pub hour: u8,
    pub minute: u8,
}

/// The items of a head as somebody hands them in: they may be unlawful.
#[derive(Clone, Copy)]
pub struct HeadItems {
    /// the carrier's code (RICS), at most 9999
    pub carrier: u16,
    /// the ticket's key, 20 bytes from 32 to 126
    pub key: [u8; 20],
    pub edition: Edition,
    /// the sum of 1 (international), 2 (edited by an agent) and 4 (specimen)
    // a number, not a type of lawful flags alone: items are handed in unchecked
    pub flags: u8,
    /// two letters
    pub language: [u8; 2],
    /// two letters, or two blanks where there is none
    pub second_language: [u8; 2],
}
