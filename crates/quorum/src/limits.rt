// The limits of the rules and of the format, each by one name. `specs/Limits.antt` has the same numbers for
// definitions; the most stations are `MOST_STATIONS` of `figures::counts`.

// The numbers of clients begin here.
pub const FIRST_CLIENT: u16 = 1_000;

// The most clients that a keyring has places for.
pub const MOST_CLIENTS: usize = 16;

// Sequences of a client's requests begin here.
pub const FIRST_SEQUENCE: u32 = 1;

// Views run from 0 to this one.
pub const LAST_VIEW: u32 = 1_000_000;

// The last view that can fail, so that there is one after it.
pub const LAST_FAILED_VIEW: u32 = 999_999;

// The most prepared certificates in a view state.
pub const MOST_PREPARED: usize = 8;

// The bytes of the longest certificate, that of a ring of ten.
pub const LONGEST_CERTIFICATE: usize = 96;

// The bytes of the longest view state.
pub const LONGEST_STATE: usize = 881;

// The bytes of the longest record, a new view of a ring of ten.
pub const LONGEST_RECORD: usize = 6_183;

// The bytes of the longest statement: the longest record without its seal.
pub const LONGEST_STATEMENT: usize = 6_175;
