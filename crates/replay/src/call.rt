// The calls that are replayed.
use crate::item::{Fault, Item};
use oracle_list::Files;
use std::io;
use std::io::Read;
use trial::{Compact, Lent, Merge, Replying, Rewrite};

pub trait Call: Copy {
    // Of the file that has what is expected.
    const NAME: &'static str;

    fn try_on<F: Read>(
        self,
        item: Item<'_>,
        files: &mut Files<F>,
        space: &mut [u32],
    ) -> Result<(), Fault>;

    // Whether the files that no other call reads are read to their ends.
    fn is_own_read<F: Read>(self, _files: &mut Files<F>) -> io::Result<bool> {
        Ok(true)
    }
}

#[derive(Clone, Copy)]
pub struct Check;

impl Call for Check {
    const NAME: &'static str = "check";

    fn try_on<F: Read>(
        self,
        item: Item<'_>,
        files: &mut Files<F>,
        space: &mut [u32],
    ) -> Result<(), Fault> {
        item.check(&mut files.expected, space)
    }
}

// A call that takes a ticket alone and writes a reply.
pub trait Written: Replying {
    const NAME: &'static str;
}

impl Written for Compact {
    const NAME: &'static str = "compact";
}

impl Written for Merge {
    const NAME: &'static str = "merge";
}

impl Written for Rewrite {
    const NAME: &'static str = "rewrite";
}

impl<C: Written> Call for C {
    const NAME: &'static str = <C as Written>::NAME;

    fn try_on<F: Read>(
        self,
        item: Item<'_>,
        files: &mut Files<F>,
        space: &mut [u32],
    ) -> Result<(), Fault> {
        let lent = Lent {
            words: item.slices.work,
            bytes: item.slices.reply,
        };
        item.replying(self, lent, &mut files.expected, space)
    }
}

#[derive(Clone, Copy)]
pub struct Levels;

impl Call for Levels {
    const NAME: &'static str = "levels";

    fn try_on<F: Read>(
        self,
        item: Item<'_>,
        files: &mut Files<F>,
        space: &mut [u32],
    ) -> Result<(), Fault> {
        item.levels(files, space)
    }

    fn is_own_read<F: Read>(self, files: &mut Files<F>) -> io::Result<bool> {
        oracle_list::is_at_end(&mut files.stimuli)
    }
}
