//! What a page is of.

ghost use Rattle.std.specs.Prelude.{◌≡◌};
ghost use Rattle.sci_pages.specs.PageKind.{end_of, kind_of, name_of, parts_of};

use crate::frame::SCHEDULE_PARTS;
use crate::log_parts::LOG_PARTS;
use crate::log_script::LOG_END;
use crate::schedule_script::SCHEDULE_END;

/// What a page is of.
#[derive(Clone, Copy)]
pub enum PageKind {
    /// A schedule.
    Schedule,
    /// A log.
    Log,
}

impl PageKind {
    /// What a text is by its first byte: each log begins with `l`, and no schedule does.
    pub fn of(text: &[u8]) -> PageKind
        ensures { result ≡ kind_of text.now }
    {
        match text {
            [b'l', ..] => PageKind::Log,
            _ => PageKind::Schedule,
        }
    }

    /// The title of a page that is given none.
    #[tactic(auto, unfolding(crate::specs::PageKind::name_of))]
    pub fn name(self) -> &'static str
        ensures { result.now ≡ name_of self }
    {
        match self {
            PageKind::Schedule => "Schedule",
            PageKind::Log => "Log",
        }
    }

    /// What stands between the title and the data.
    pub fn parts(self) -> &'static str
        ensures { result.now ≡ parts_of self }
    {
        match self {
            PageKind::Schedule => SCHEDULE_PARTS,
            PageKind::Log => LOG_PARTS,
        }
    }

    /// What stands behind the data.
    pub fn end(self) -> &'static str
        ensures { result.now ≡ end_of self }
    {
        match self {
            PageKind::Schedule => SCHEDULE_END,
            PageKind::Log => LOG_END,
        }
    }
}
