ghost use Rattle.std.specs.Prelude.{◌≡◌};
ghost use Rattle.number.specs.Numbers.{numeral};
ghost use Rattle.tokens.specs.Rows.{field_seen};
ghost use Rattle.tokens.specs.Seen.{seen, place_of};

use number::number_of;

// A line of the input and a field of that line, each counted from 1.
#[derive(Clone, Copy, PartialEq, Eq, Debug)]
pub struct Place {
    pub line: usize,
    pub field: usize,
}

// A field that is no number, one that is, or the end of a line, which has the place of the field that is not there.
#[derive(Clone, Copy)]
pub enum Token<'a> {
    Word(&'a [u8], Place),
    Number(&'a [u8], u32, Place),
    End(Place),
}

impl<'a> Token<'a> {
    pub(crate) fn of_field(field: &'a [u8], place: Place) -> Self
        ensures told { seen result ≡ field_seen (numeral field.now) field.now place }
        ensures placed { place_of (seen result) ≡ place }
    {
        match number_of(field) {
            Some(number) => Token::Number(field, number, place),
            None => Token::Word(field, place),
        }
    }

    pub fn place(self) -> Place
        ensures { result ≡ place_of (seen self.entry) }
    {
        match self {
            Token::Word(_, place) | Token::Number(_, _, place) | Token::End(place) => place,
        }
    }
}
