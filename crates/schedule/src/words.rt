ghost use Rattle.std.specs.Prelude.{◌≡◌};
ghost use Rattle.schedule.specs.Words.{keyword_of, vote_of};

use rules::call::Vote;

// The word that a line begins with.
#[derive(Clone, Copy)]
pub(crate) enum Keyword {
    Roster,
    Votes,
    Begin,
    Vote,
    Deliver,
    Advance,
}

impl Keyword {
    // The word that the bytes spell, if a line can begin with it. No `TryFrom`: there is nothing to say of other bytes.
    pub(crate) fn spelled_by(bytes: &[u8]) -> Option<Keyword>
        ensures { result ≡ keyword_of bytes.now }
    {
        match bytes {
            b"roster" => Some(Keyword::Roster),
            b"votes" => Some(Keyword::Votes),
            b"begin" => Some(Keyword::Begin),
            b"vote" => Some(Keyword::Vote),
            b"deliver" => Some(Keyword::Deliver),
            b"advance" => Some(Keyword::Advance),
            _ => None,
        }
    }
}

// The vote that the bytes spell, if they spell one. No TryFrom, since votes are of another crate.
pub(crate) fn vote_of(bytes: &[u8]) -> Option<Vote>
    ensures { result ≡ vote_of bytes.now }
{
    match bytes {
        b"yes" => Some(Vote::Yes),
        b"no" => Some(Vote::No),
        _ => None,
    }
}
