// The readers of bodies: the block reader and the item reader call each other, and the depth left falls with each block
// that is opened. They keep an offset into the lent section and copy none of it.
use crate::limits::{CALL, CHOICE, END, FORK, LOCK, MIRROR, MOST_FORKS, MOST_LOCALS, NEW, OTHER};
use crate::refusal::Refusal;
use crate::scope::{in_scope, names_at};

// Where a reader stands in a body: the offset of the next byte, the names in scope, and how many NEW and MIRROR, and FORK,
// of the routine, and how many items of the table, stand before.
#[derive(Clone, Copy, Debug, PartialEq, Eq)]
pub struct Cursor {
    pub at: usize,
    pub scope: u64,
    pub locals: u64,
    pub forks: u64,
    pub items: u64,
}

// What stands at a cursor: an item without a block, with the cursor after it; an item with one block (LOCK, FORK) or with
// two (CHOICE), with the cursor before its first block; or the close of the block, with the next offset.
#[derive(Clone, Copy, Debug, PartialEq, Eq)]
pub enum Opening {
    Plain(Cursor),
    One(Cursor),
    Two(Cursor),
    Close(usize),
}

// An item that was read, with the cursor after it, or the close of the block, with the next offset.
#[derive(Clone, Copy, Debug, PartialEq, Eq)]
pub enum ItemRead {
    More(Cursor),
    Closed(usize),
}

// What stays as it is while a body is read: the parameter counts of all routines, the body section, and the parameter
// count of the body's own routine.
#[derive(Clone, Copy)]
pub struct Reading<'a> {
    pub counts: &'a [u8],
    pub section: &'a [u8],
    pub own: u64,
}

impl Reading<'_> {
    ghost use Rattle.std.specs.Prelude.{◌≡◌};
    ghost use Rattle.table.specs.Laws.Readers.{block_answer, item_answer, call_answer, mirror_answer};
    ghost use Rattle.table.specs.Laws.Readers.{Opens, AtItem, Ready};

    // What stands at a CALL.
    fn open_call(&self, p: Cursor) -> Result<Opening, Refusal>
        requires { AtItem self.now.section.now self.now.own p }
        ensures { result ≡ call_answer self.now.counts.now self.now.section.now self.now.own p }
    {
        let s = self.section;
        if s.len() <= p.at + 1 {
            return Err(Refusal::UnknownRoutine);
        }
        let r = usize::from(s[p.at + 1]);
        if self.counts.len() <= r {
            return Err(Refusal::UnknownRoutine);
        }
        let q = self.counts[r];
        if names_at(s, p.at + 2, u64::from(q), p.scope) {
            Ok(Opening::Plain(Cursor {
                at: p.at + 2 + usize::from(q),
                items: p.items + 1,
                ..p
            }))
        } else {
            Err(Refusal::UnknownName)
        }
    }

    // What stands at a MIRROR.
    fn open_mirror(&self, p: Cursor) -> Result<Opening, Refusal>
        requires { AtItem self.now.section.now self.now.own p }
        ensures { result ≡ mirror_answer self.now.section.now self.now.own p }
    {
        let s = self.section;
        let made = p.locals;
        let name = p.at + 1;
        if MOST_LOCALS <= made {
            return Err(Refusal::TooMany); // tried before the name is
        }
        if s.len() <= name {
            return Err(Refusal::UnknownName); // as for a name out of scope
        }
        if in_scope(p.scope, u64::from(s[name])) {
            Ok(Opening::Plain(Cursor {
                at: p.at + 2,
                scope: p.scope + (1 << (self.own + made + 1)),
                locals: made + 1,
                items: p.items + 1,
                ..p
            }))
        } else {
            Err(Refusal::UnknownName)
        }
    }

    // What stands at p.
    fn open_item(&self, p: Cursor, depth: u64, first: bool) -> Result<Opening, Refusal>
        requires { Ready self.now.own p }
        ensures { Opens self.now.counts.now self.now.section.now self.now.own p depth first result }
    {
        let s = self.section;
        if s.len() <= p.at {
            return Err(Refusal::CutBody);
        }
        let items = p.items + 1;
        match s[p.at] {
            END if first => Err(Refusal::Misplaced),
            END => Ok(Opening::Close(p.at + 1)),
            NEW => {
                if MOST_LOCALS <= p.locals {
                    return Err(Refusal::TooMany);
                }
                Ok(Opening::Plain(Cursor {
                    at: p.at + 1,
                    scope: p.scope + (1 << (self.own + p.locals + 1)),
                    locals: p.locals + 1,
                    items,
                    ..p
                }))
            }
            LOCK | FORK | CHOICE if depth == 0 => Err(Refusal::TooDeep),
            LOCK => {
                if s.len() <= p.at + 1 {
                    return Err(Refusal::UnknownName);
                }
                if in_scope(p.scope, u64::from(s[p.at + 1])) {
                    Ok(Opening::One(Cursor {
                        at: p.at + 2,
                        items,
                        ..p
                    }))
                } else {
                    Err(Refusal::UnknownName)
                }
            }
            FORK => {
                if MOST_FORKS <= p.forks {
                    return Err(Refusal::TooMany);
                }
                Ok(Opening::One(Cursor {
                    at: p.at + 1,
                    forks: p.forks + 1,
                    items,
                    ..p
                }))
            }
            CHOICE => Ok(Opening::Two(Cursor {
                at: p.at + 1,
                items,
                ..p
            })),
            OTHER if first => Ok(Opening::Close(p.at + 1)),
            OTHER => Err(Refusal::Misplaced),
            CALL => self.open_call(p),
            MIRROR => self.open_mirror(p),
            _ => Err(Refusal::UnknownCode),
        }
    }

    // Reads the items from `start` to the END or, in a first alternative, the OTHER that closes the block, whose locals leave
    // the scope there.
    #[cycle(read_block_read_item)]
    pub fn read_block(&self, start: Cursor, depth: u64, first: bool) -> Result<Cursor, Refusal>
        requires { Ready self.now.own start }
        ensures { result ≡ block_answer self.now.counts.now self.now.section.now self.now.own start depth first }
    {
        let mut p = start;
        loop {
            match self.read_item(p, depth, first)? {
                ItemRead::More(next) => p = next,
                ItemRead::Closed(next) => {
                    return Ok(Cursor {
                        at: next,
                        scope: start.scope,
                        items: p.items + 1,
                        ..p
                    });
                }
            }
        }
    }

    // Reads the item at p, with the blocks that it opens.
    #[cycle(read_block_read_item)]
    fn read_item(&self, p: Cursor, depth: u64, first: bool) -> Result<ItemRead, Refusal>
        requires { Ready self.now.own p }
        ensures { result ≡ item_answer self.now.counts.now self.now.section.now self.now.own p depth first }
    {
        match self.open_item(p, depth, first)? {
            Opening::Plain(next) => Ok(ItemRead::More(next)),
            Opening::One(block) => {
                let end = self.read_block(block, depth - 1, false)?;
                Ok(ItemRead::More(end))
            }
            Opening::Two(block) => {
                let other = self.read_block(block, depth - 1, true)?;
                let end = self.read_block(other, depth - 1, false)?;
                Ok(ItemRead::More(end))
            }
            Opening::Close(next) => Ok(ItemRead::Closed(next)),
        }
    }
}
