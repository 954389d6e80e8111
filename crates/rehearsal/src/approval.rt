// An approval under way, and the calls that are made in it.
ghost use Rattle.std.specs.Prelude.{◌≡◌, ℕ, IfOk};
ghost use Rattle.rehearsal.specs.Stages.{call_answer, call_stage, line_text, line_stage};
ghost use Rattle.rehearsal.specs.Faults.{answered};

use crate::fault::Fault;
use crate::memory::OutOfMemory;
use crate::opening::NewNet;
use net::net::Net;
use post::LIST_PLACES;
use rows::rows::RowVault;
use rules::call::Call;
use rules::message::{Kind, Message};
use rules::record::Record;
use schedule::Line;
use sites::Refusal;
use sites::set::SITE_PLACES;
use std::alloc::Global;
use tokens::Place;
use votes::Votes;

// What stands at the places of the list that no message has.
const NO_MESSAGE: Message = Message {
    kind: Kind::Start,
    number: 0,
    sender: 0,
    receiver: 0,
};

// A net, with all that its calls take. Its contracts read the stage of its fields; a model of it would hide no more.
#[derive(Drop)]
pub(crate) struct Approval<'a> {
    net: Net,
    policy: Votes,
    pub(crate) vault: RowVault<'a>,
    list: Vec<Message>,
}

impl<'a> Approval<'a> {
    ghost use Rattle.rehearsal.specs.Approvals.{stage_of, new_stage};

    pub(crate) fn new(
        heap: Global,
        opened: NewNet,
        policy: Votes,
        rows: &'a mut [Record; SITE_PLACES],
    ) -> Result<Self, OutOfMemory>
        ensures { IfOk result (λ approval. stage_of approval ≡ new_stage opened policy) }
    {
        let NewNet { net, first } = opened;
        let list = vec![in heap; NO_MESSAGE; LIST_PLACES]?;
        let vault = RowVault::new(rows, net.sites(), first);
        Ok(Approval {
            net,
            policy,
            vault,
            list,
        })
    }

    // Makes a call, whichever it is: a match over the cases of a call, since a closure for each would hide which does what.
    fn make(&mut self, call: Call) -> Result<(), Refusal>
        ensures answer { result ≡ call_answer (stage_of self.old) call }
        ensures stage { stage_of self.new ≡ call_stage (stage_of self.old) call }
    {
        let Approval {
            net,
            policy,
            vault,
            list,
        } = self;
        match call {
            Call::Begin(vote) => net.begin(policy, vault, list, vote),
            Call::Vote(place, vote) => net.vote(policy, vault, list, place, vote),
            Call::Deliver(place) => net.deliver(policy, vault, list, place),
            Call::Advance(site) => net.advance(policy, vault, list, site),
        }
    }

    // Makes the call of a line.
    pub(crate) fn run(&mut self, line: Result<Line, Place>) -> Result<(), Fault>
        ensures answer { (number : ℕ) → answered number result ≡ line_text (stage_of self.old) number line }
        ensures stage { stage_of self.new ≡ line_stage (stage_of self.old) line }
    {
        let Line::Call(call) = line? else {
            return Err(Fault::MISPLACED);
        };
        Ok(self.make(call)?)
    }
}
