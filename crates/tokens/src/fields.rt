ghost use Rattle.std.specs.Prelude.{◌≡◌, ◌+◌, ◌<◌, ◌^◌, length};
ghost use Rattle.tokens.specs.Text.{fields};
ghost use Rattle.tokens.specs.Rows.{place_at, row, token, past};
ghost use Rattle.tokens.specs.Seen.{seen, place_of};

use crate::part::up_to;
use crate::token::{Place, Token};
use std::marker::Model;

// Reads a line token by token. What it is to a caller: the row of the fields that are left.
#[derive(Drop)]
pub struct Fields<'a> {
    line: &'a [u8],
    // Where the next field begins: past the end of the line once all its fields are read. An index, as the reader has: a line may
    // end in an empty field, so what is left of it would not tell.
    at: usize,
    // The place of the next field.
    place: Place,
}

impl<'a> Model for Fields<'a> {
    ghost use Rattle.tokens.specs.Rows.{Row};

    ghost Value = { Row };

    ghost use Rattle.tokens.specs.Ahead.{fields_ahead, WithinLine};

    ghost view = { fields_ahead };

    ghost invariant = { WithinLine };
}

impl<'a> Fields<'a> {
    pub(crate) fn new(line: &'a [u8], number: usize) -> Self
        requires { number < 2 ^ 63 }
        ensures { result ≡ row (place_at number 1) (fields line.now) }
    {
        Fields {
            line,
            at: 0,
            place: Place {
                line: number,
                field: 1,
            },
        }
    }

    // The number of the line.
    pub fn line(&self) -> usize
        ensures told { result ≡ self.now.place.line }
        ensures counted { result < 2 ^ 63 }
    {
        self.place.line
    }

    // The next field, or the end of the line, which is not passed.
    pub fn next_token(&mut self) -> Token<'a>
        ensures told { seen result ≡ token self.old }
        ensures moves { self.new ≡ past self.old }
        ensures numbered { (place_of (seen result)).line < 2 ^ 63 }
        ensures counted { (place_of (seen result)).field < 2 ^ 63 + 2 }
    {
        let place = self.place;
        if self.at > self.line.len() {
            return Token::End(place);
        }
        let field = up_to(&self.line[self.at..], b',');
        self.at += field.len() + 1;
        self.place.field += 1;
        Token::of_field(field, place)
    }
}
