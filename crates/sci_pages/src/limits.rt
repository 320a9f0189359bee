//! How much a page can have.

/// A page of a schedule has at most as many events, so that a browser steps through it without a pause.
pub const MAX_PAGE_EVENTS: u32 = 10_000;

/// A page of a log has at most as many entries.
pub const MAX_PAGE_ENTRIES: u32 = 10_000;

/// A page has at most as many bytes.
pub const MAX_PAGE_BYTES: u32 = 5_000_000;
