// Why a line of the input is not carried out. Conversions and text are written here, since contracts read what they give.
ghost use Rattle.std.specs.Prelude.{◌≡◌, Some};
ghost use Rattle.rehearsal.specs.Faults.{fault_text};
ghost use Rattle.rehearsal.specs.declared.fault.Fault.TheVariants.{Unreadable, Refused};

use sites::Refusal;
use std::fmt;
use tokens::Place;

#[derive(Clone, Copy)]
pub(crate) enum Fault {
    // This is the line's first field that is bad, missing or surplus.
    Unreadable { field: usize },
    Refused(Refusal),
}

impl Fault {
    // A line that does not belong where it stands is bad from its first field on.
    pub(crate) const MISPLACED: Fault = Fault::Unreadable { field: 1 };
}

impl From<Place> for Fault {
    ghost from_gives = { λ place fault. fault ≡ Unreadable place.field };

    fn from(place: Place) -> Fault {
        Fault::Unreadable { field: place.field }
    }
}

impl From<Refusal> for Fault {
    ghost from_gives = { λ refusal fault. fault ≡ Refused refusal };

    fn from(refusal: Refusal) -> Fault {
        Fault::Refused(refusal)
    }
}

impl fmt::Display for Fault {
    ghost output = { λ fault. Some (fault_text fault) };

    fn fmt<W: fmt::Write>(&self, f: &mut fmt::Formatter<W>) -> fmt::Result {
        match self {
            Fault::Unreadable { field } => write!(f, "{},{field}", u32::from(Refusal::Unreadable)),
            Fault::Refused(refusal) => write!(f, "{}", u32::from(*refusal)),
        }
    }
}
