// The forms of lines, each from its second field on.
ghost use Rattle.std.specs.Prelude.{◌≡◌, ◌≤◌, OnOk};
ghost use Rattle.tokens.specs.Rows.{past};
ghost use Rattle.schedule.specs.Fields.{then, number_at, vote_at, numbers, past_all};
ghost use Rattle.schedule.specs.Lines.{closed_at, padded, roster_line, votes_line, begin_line, vote_line, deliver_line, advance_line};

use crate::line::{Ballots, Line, Roster};
use crate::words::vote_of;
use rules::call::{Call, Vote};
use sites::set::SITE_PLACES;
use tokens::{Fields, Place, Token};

// The next field as a number. This, `vote` and `closed` are two arms each: one function over what to take would be longer.
fn number(fields: &mut Fields) -> Result<u32, Place>
    ensures told { result ≡ number_at fields.old }
    ensures moves { fields.new ≡ past fields.old }
{
    match fields.next_token() {
        Token::Number(_, number, _) => Ok(number),
        token => Err(token.place()),
    }
}

// The next field as a vote.
fn vote(fields: &mut Fields) -> Result<Vote, Place>
    ensures told { result ≡ vote_at fields.old }
    ensures moves { fields.new ≡ past fields.old }
{
    match fields.next_token() {
        Token::Word(bytes, place) => vote_of(bytes).ok_or(place),
        token => Err(token.place()),
    }
}

// The line, if no field is left.
fn closed(line: Line, fields: &mut Fields) -> Result<Line, Place>
    ensures { result ≡ closed_at line fields.old }
{
    match fields.next_token() {
        Token::End(_) => Ok(line),
        token => Err(token.place()),
    }
}

pub(crate) fn roster(fields: &mut Fields) -> Result<Line, Place>
    ensures { result ≡ roster_line fields.old }
{
    let sites = number(fields)?;
    let first = number(fields)?;
    closed(Line::Roster(Roster { sites, first }), fields)
}

pub(crate) fn begin(fields: &mut Fields) -> Result<Line, Place>
    ensures { result ≡ begin_line fields.old }
{
    let answer = vote(fields)?;
    closed(Line::Call(Call::Begin(answer)), fields)
}

pub(crate) fn vote_on(fields: &mut Fields) -> Result<Line, Place>
    ensures { result ≡ vote_line fields.old }
{
    let message = number(fields)?;
    let answer = vote(fields)?;
    closed(Line::Call(Call::Vote(message, answer)), fields)
}

pub(crate) fn deliver(fields: &mut Fields) -> Result<Line, Place>
    ensures { result ≡ deliver_line fields.old }
{
    let message = number(fields)?;
    closed(Line::Call(Call::Deliver(message)), fields)
}

pub(crate) fn advance(fields: &mut Fields) -> Result<Line, Place>
    ensures { result ≡ advance_line fields.old }
{
    let site = number(fields)?;
    closed(Line::Call(Call::Advance(site)), fields)
}

// The votes of so many sites.
fn site_votes(fields: &mut Fields, sites: u32) -> Result<[u32; SITE_PLACES], Place>
    requires { sites ≤ 16 }
    ensures told { result ≡ then (numbers sites fields.old) (padded sites) }
    ensures moves { OnOk result (fields.new ≡ past_all sites fields.old) }
{
    let mut votes = [0; SITE_PLACES];
    // A loop and no `collect`, which would not say which field is bad.
    for site in 0..sites {
        votes[site as usize] = number(fields)?;
    }
    Ok(votes)
}

pub(crate) fn votes(fields: &mut Fields, sites: u32) -> Result<Line, Place>
    requires { sites ≤ 16 }
    ensures { result ≡ votes_line sites fields.old }
{
    let commit = number(fields)?;
    let abort = number(fields)?;
    let votes = site_votes(fields, sites)?;
    let ballots = Ballots {
        commit,
        abort,
        sites,
        votes,
    };
    closed(Line::Votes(ballots), fields)
}
