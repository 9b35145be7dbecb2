// The rows one after the other.
ghost use Rattle.std.specs.Iterator.{YieldsFirstBy, YieldsLastBy, item_count};
ghost use Rattle.ldpc_rows.specs.Rows.{seen, left};

use crate::{Row, Rows};
use ldpc_shape::{GROUP, GROUP_U32};

impl<'a> Iterator for Rows<'a> {
    type Item = Row<'a>;

    ghost next_gives = { YieldsFirstBy seen left };

    ghost remaining = { item_count left };

    fn next(&mut self) -> Option<Row<'a>> {
        let Rows { first, lens, addrs } = *self;
        let (len, lens) = lens.split_first()?;
        let (row, addrs) = addrs.split_at(*len as usize);
        *self = Rows {
            first: first + GROUP_U32,
            lens,
            addrs,
        };
        Some(Row { first, addrs: row })
    }
}

impl<'a> DoubleEndedIterator for Rows<'a> {
    ghost next_back_gives = { YieldsLastBy seen left };

    fn next_back(&mut self) -> Option<Row<'a>> {
        let Rows { first, lens, addrs } = *self;
        let (len, lens) = lens.split_last()?;
        let (addrs, row) = addrs.split_at(addrs.len() - *len as usize);
        *self = Rows { first, lens, addrs };
        Some(Row {
            first: first + (GROUP * lens.len()) as u32,
            addrs: row,
        })
    }
}
