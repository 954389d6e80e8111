// A delivery: a message is counted in place, or makes its receiver take a step.
ghost use Rattle.std.specs.Prelude.{◌≡◌, ◌<◌, Ok, slice_index_or};
ghost use Rattle.rules.specs.Calls.{delivery_answer, delivery_after, delivery_writes};
ghost use Rattle.rules.specs.Entries.{plain};
ghost use Rattle.rules.specs.Plans.{tallied, role_after};
ghost use Rattle.rules.specs.World.{world_with, row_at, no_entry, with_rows, with_role, count_answer, count_net, answer_of, accepted, Left};
ghost use Rattle.net.specs.Bounds.{Near};
ghost use Rattle.net.specs.Carried.{Becomes, carried, done, receipt};

use super::Net;
use super::finding::record_of;
use rules::message::Message;
use rules::record::Record;
use sites::Refusal;
use steps::member::{self, Receipt};
use vault::Vault;

impl Net {
    // Counts a message in the row of its receiver.
    fn count_row(&mut self, message: Message, own: Record) -> Result<(), Refusal>
        requires { message.receiver < 16 }
        ensures answer { result ≡ count_answer (tallied message (plain own) (row_at self.old message.receiver).role) }
        ensures net { self.new ≡ with_rows self.old self.old.sent (with_role self.old message.receiver (role_after (tallied message (plain own) (row_at self.old message.receiver).role) (row_at self.old message.receiver).role)) }
    {
        member::tally(&mut self.rows.row[message.receiver as usize], message, own)
    }

    // Counts a message at its receiver.
    #[tactic(auto, using(crate::proofs::Counted::counted_net))]
    fn count_message<V: Vault>(&mut self, vault: &V, message: Message) -> Result<(), Refusal>
        requires { Near (V.stored vault.now).sites message.receiver }
        ensures answer { result ≡ count_answer (tallied message (slice_index_or (V.stored vault.now).entries message.receiver no_entry) (row_at self.old message.receiver).role) }
        ensures net { self.new ≡ count_net self.old message.receiver (tallied message (slice_index_or (V.stored vault.now).entries message.receiver no_entry) (row_at self.old message.receiver).role) }
    {
        let own = record_of(vault, message.receiver);
        self.count_row(message, own)
    }

    // The receiver of a message takes its step.
    fn step_message<V: Vault>(
        &mut self,
        vault: &mut V,
        list: &mut [Message],
        message: Message,
    ) -> Result<(), Refusal>
        requires { Near (V.stored vault.old).sites message.receiver }
        ensures answer { result ≡ answer_of (carried self.old (V.stored vault.old) list.old (receipt self.old (V.stored vault.old) list.old message)) }
        ensures becomes { Becomes (done self.old (V.stored vault.old) list.old (receipt self.old (V.stored vault.old) list.old message)) (accepted result) (V.stored vault.old) (V.stored vault.new) self.new list.new }
        ensures tied { V.tied vault.old vault.new }
    {
        let receipt = Receipt {
            message,
            own: record_of(vault, message.receiver),
            role: self.row(message.receiver).role,
        };
        self.carry(vault, list, receipt.receive())
    }

    // What a message does at its receiver.
    pub(super) fn act_on<V: Vault>(
        &mut self,
        vault: &mut V,
        list: &mut [Message],
        message: Message,
    ) -> Result<(), Refusal>
        requires { Near (V.stored vault.old).sites message.receiver }
        ensures answer { result ≡ delivery_answer (V.stored vault.old).left (world_with self.old (V.stored vault.old) list.old) (Ok message) }
        ensures becomes { Becomes (delivery_after (V.stored vault.old).left (world_with self.old (V.stored vault.old) list.old) (Ok message)) (delivery_writes (V.stored vault.old).left (world_with self.old (V.stored vault.old) list.old) (Ok message)) (V.stored vault.old) (V.stored vault.new) self.new list.new }
        ensures tied { V.tied vault.old vault.new }
    {
        if member::counts(message.kind) {
            self.count_message(vault, message)
        } else {
            self.step_message(vault, list, message)
        }
    }
}
