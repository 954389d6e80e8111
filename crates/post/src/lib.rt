//! Sending into the caller's message list.
#![tactic(auto)]

ghost use Rattle.std.specs.Prelude.{◌≡◌, ◌+◌, ◌≤◌, length};
ghost use Rattle.rules.specs.Posting.{written, room};
ghost use Rattle.sites.specs.Sets.{size};
ghost use Rattle.post.specs.Sent.{sent_to_each, send_answer, list_after, WrittenAs};

use rules::message::{Kind, Message};
use sites::set::{MOST_SITES, has, size};
use sites::{Refusal, Site, SiteSet};

// How many places of a list count.
pub const LIST_PLACES: usize = 4096;

// One message to each site of a set.
#[derive(Clone, Copy)]
pub struct Broadcast {
    pub kind: Kind,
    pub number: u32,
    pub sender: Site,
    pub to: SiteSet,
}

// Has a list of that length, of which some places are taken, one more for each site of the set? A question: a net asks it
// before it writes, and `send` before it sends.
pub fn has_room(places: usize, sent: usize, to: SiteSet) -> bool
    ensures { result ≡ room places sent to }
{
    let counting = places.min(LIST_PLACES);
    sent <= counting && size(to) as usize <= counting - sent
}

impl Broadcast {
    // Writes the messages from the place `sent` on, and answers the place after them.
    //
    // The place is counted by hand: of a list that is written through a filtered or zipped iterator, nothing is known afterwards.
    #[tactic(auto, using(crate::proofs::Sizes::below_none, crate::proofs::Sizes::room_for, crate::proofs::Writing::length_written))]
    fn write_all(&self, list: &mut [Message], sent: usize) -> usize
        requires { sent + size self.now.to ≤ length list.old }
        ensures list { list.new ≡ written list.old sent (sent_to_each self.now) }
        ensures at { result ≡ sent + size self.now.to }
    {
        let mut at = sent;
        for receiver in 0..MOST_SITES {
            if has(self.to, receiver) {
                list[at] = Message {
                    kind: self.kind,
                    number: self.number,
                    sender: self.sender,
                    receiver,
                };
                at += 1;
            }
        }
        at
    }

    // Sends the messages, in rising order of their receivers, from the place `sent` on; the answer is how many
    // messages the list has then.
    pub fn send(&self, list: &mut [Message], sent: usize) -> Result<usize, Refusal>
        ensures answer { result ≡ send_answer (length list.old) sent self.now.to }
        ensures list { list.new ≡ list_after (room (length list.old) sent self.now.to) list.old sent (sent_to_each self.now) }
    {
        if !has_room(list.len(), sent, self.to) {
            return Err(Refusal::ListFull);
        }
        Ok(self.write_all(list, sent))
    }
}

// What writing means: earlier places stay, then stand the new messages, and later places stay. It does nothing: the gate asks for
// the proof of its contract.
#[tactic(auto, using(crate::proofs::Writing::written_as))]
pub fn written_as()
    ensures { WrittenAs }
{}
