ghost use Rattle.std.specs.Prelude.{◌≡◌, ◌+◌, ◌<◌, ◌^◌, IfSome, slice_get};
ghost use Rattle.tokens.specs.Rows.{AreNumbered};
ghost use Rattle.schedule.specs.Words.{keyword_of};
ghost use Rattle.schedule.specs.Lines.{form, spelled, first_read, after_first};

use crate::forms;
use crate::line::{Line, Reading, Section};
use crate::words::Keyword;
use sites::set::MOST_SITES;
use tokens::{Fields, Place, Reader, Token};

// The line of the form that the word at `place` names, if that section has such lines: an arm for each form, since a table of
// functions would hide which word may stand where.
fn by_word(word: &[u8], place: Place, fields: &mut Fields, section: Section) -> Result<Line, Place>
    ensures { result ≡ form section place (keyword_of word.now) fields.old }
{
    match (section, Keyword::spelled_by(word)) {
        (Section::Roster, Some(Keyword::Roster)) => forms::roster(fields),
        (Section::Policy { sites }, Some(Keyword::Votes)) if sites <= MOST_SITES => {
            forms::votes(fields, sites)
        }
        (Section::Calls, Some(Keyword::Begin)) => forms::begin(fields),
        (Section::Calls, Some(Keyword::Vote)) => forms::vote_on(fields),
        (Section::Calls, Some(Keyword::Deliver)) => forms::deliver(fields),
        (Section::Calls, Some(Keyword::Advance)) => forms::advance(fields),
        _ => Err(place),
    }
}

// What the line says of which the fields are left, all of them or, where it is begun, those that were not taken yet.
#[tactic(auto, unfolding(crate::specs::Lines::spelled))]
pub fn read_fields(fields: &mut Fields, section: Section) -> Result<Line, Place>
    ensures { result ≡ spelled section fields.old }
{
    match fields.next_token() {
        Token::Word(word, place) => by_word(word, place, fields, section),
        token => Err(token.place()),
    }
}

// The next line of a section, if there is one. The line is passed, whatever it says.
pub fn read_line(reader: &mut Reader, section: Section) -> Option<Reading>
    ensures told { result ≡ first_read section reader.old }
    ensures passes { reader.new ≡ after_first reader.old }
    ensures counted { IfSome result (λ r. r.number < 2 ^ 63) }
    ensures numbered { AreNumbered reader.old }
    ensures follows { IfSome result
        (λ r. IfSome (slice_get reader.new 0) (λ next. next.place.line ≡ r.number + 1)) }
{
    let mut fields = reader.next_line()?;
    Some(Reading {
        number: fields.line(),
        line: read_fields(&mut fields, section),
    })
}
