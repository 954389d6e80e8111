ghost use Rattle.std.specs.Prelude.{◌≡◌};
ghost use Rattle.sites.specs.Refusals.{number};

// Why a call was refused, with the number that stands for it. A refused call changes nothing.
#[derive(Clone, Copy, PartialEq, Eq, Debug)]
pub enum Refusal {
    // A line or an input cannot be read, or a call would give such a line.
    Unreadable = 1,
    // The sites are not 2 to 16, or the first coordinator is not among them.
    SiteCount = 2,
    // A number of a policy is out of range.
    PolicyRange = 3,
    // Some commit quorum and some abort quorum would share no site.
    NoCrossing = 4,
    // Vault or policy has another number of sites, or the list is shorter than what was sent.
    Mismatch = 5,
    // The site is unknown, or the group has an unknown site or lacks its coordinator.
    UnknownSite = 6,
    // No message has that place, or it names an unknown site or a number out of range.
    NoMessage = 7,
    // A start is delivered, or another kind is voted on.
    WrongKind = 8,
    // A site that has to be up is down, or one to restart is up.
    WrongPower = 9,
    // The message does not match, or a number is not the one that the rule asks for.
    Stale = 10,
    // State, last attempt or role is not the one that the rule names.
    Unfit = 11,
    // Advance finds no row of its rule that holds.
    Undecided = 12,
    // The greatest number is used up.
    NumbersSpent = 13,
    // The list lacks places for the messages of the step.
    ListFull = 14,
    // The step writes and the vault has nothing left, or its memory is too short.
    VaultFull = 15,
    // The bytes for a written line are too few.
    BytesShort = 16,
}

impl From<Refusal> for u32 {
    fn from(refusal: Refusal) -> u32
        ensures { result ≡ number refusal }
    {
        refusal as u32
    }
}
