// What a caller wants to read next.
ghost use Rattle.lines.specs.Lines.{kind_of};
ghost use Rattle.std.specs.Prelude.{◌≡◌};

use crate::kind::Kind;

// A kind of line, with what its numbers are held to.
#[derive(Clone, Copy, PartialEq, Eq, Debug)]
pub enum Wanted<'m> {
    // A plan over a field with one of these marks.
    Plan { marks: &'m [u8] },
    // A row of a plan with threshold t.
    Row { t: u8 },
    // A card over the field with this mark.
    Card { mark: u8 },
    // A key.
    Key,
    // A dummy key for threshold t and a key of that size.
    Dummy { t: u8, size: u8 },
}

// The cases that lend nothing are made by calls, since the checker follows a value that could hold a loan
// only from a call or to a later read.
impl Wanted<'_> {
    // A row of a plan with threshold t.
    pub fn a_row(t: u8) -> Wanted<'static>
        ensures { result ≡ Wanted.Row t }
    {
        Wanted::Row { t }
    }

    // A card over the field with this mark.
    pub fn a_card(mark: u8) -> Wanted<'static>
        ensures { result ≡ Wanted.Card mark }
    {
        Wanted::Card { mark }
    }

    // A key.
    pub fn a_key() -> Wanted<'static>
        ensures { result ≡ Wanted.Key }
    {
        Wanted::Key
    }

    // A dummy key for threshold t and a key of that size.
    pub fn a_dummy(t: u8, size: u8) -> Wanted<'static>
        ensures { result ≡ Wanted.Dummy t size }
    {
        Wanted::Dummy { t, size }
    }

    // The kind of line.
    pub fn kind(&self) -> Kind
        ensures { result ≡ kind_of self.now }
    {
        match self {
            Self::Plan { .. } => Kind::Plan,
            Self::Row { .. } => Kind::Row,
            Self::Card { .. } => Kind::Card,
            Self::Key => Kind::Key,
            Self::Dummy { .. } => Kind::Dummy,
        }
    }
}
