// What was found at three references, kept under a stamp so that an old memo need not be cleared.
ghost use Rattle.std.specs.Prelude.{◌<◌, length};
ghost use Rattle.sources.specs.Memos.{Stamped};

use crate::entry::Entry;

#[derive(Drop)]
pub struct Memo<'a> {
    pub entries: &'a mut [Entry],
    pub stamp: u32,
    pub visits: u64,
    ghost some: { 0 < length entries.now },
    ghost stamped: { Stamped entries.now stamp },
}
