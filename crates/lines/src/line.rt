// A line that was read, as its kind says.
use crate::part::Part;

// The numbers of a line; deal mark and data are parts of the text.
#[derive(Clone, Copy, PartialEq, Eq, Debug)]
pub enum Line<'a> {
    Plan {
        field: u8,
        t: u8,
        n: u8,
    },
    Row {
        data: Part<'a>,
    },
    Card {
        field: u8,
        mark: Part<'a>,
        t: u8,
        n: u8,
        card: u8,
        size: u8,
        data: Part<'a>,
    },
    Key {
        mark: Part<'a>,
        data: Part<'a>,
    },
    Dummy {
        data: Part<'a>,
    },
}
