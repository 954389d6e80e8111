// From what a site is to do to what was done.
ghost use Rattle.std.specs.Prelude.{◌≡◌, ◌<◌, true, IfOk};
ghost use Rattle.rules.specs.Plans.{plain_step, planned};
ghost use Rattle.rules.specs.World.{world_with, with_rows, with_role, applied, answer_of, accepted, Left};
ghost use Rattle.net.specs.Bounds.{Near, Within};
ghost use Rattle.net.specs.Carried.{Becomes, carried, done};

use super::Net;
use post::{Broadcast, has_room};
use rules::message::Message;
use rules::role::Role;
use rules::rows::Row;
use rules::step::Step;
use sites::{Refusal, Site};
use vault::Vault;

// What one write may cost a vault.
const WRITE_PRICE: u32 = 1;

// The site of the row has another role now. The whole row is lent, so that it stays up is said too.
fn take_role(row: &mut Row, role: Option<Role>)
    ensures up { row.new.up ≡ row.old.up }
    ensures role { row.new.role ≡ role }
{
    row.role = role;
}

impl Net {
    // A step is admitted if the list has places for its messages and the vault something left for its write.
    fn admit<V: Vault>(
        &self,
        vault: &V,
        list: &[Message],
        asked: Result<Step, Refusal>,
    ) -> Result<Step, Refusal>
        requires { IfOk asked (λ t. Near (V.stored vault.now).sites t.site) }
        ensures is { planned result ≡ carried self.now (V.stored vault.now) list.now (planned asked) }
        ensures within { IfOk result (λ t. Within (world_with self.now (V.stored vault.now) list.now) (V.stored vault.now) (plain_step t)) }
    {
        let step = asked?;
        if !has_room(list.len(), self.sent, step.to) {
            return Err(Refusal::ListFull);
        }
        if vault.left() < WRITE_PRICE {
            return Err(Refusal::VaultFull);
        }
        Ok(step)
    }

    // The row of a site is lent for its new role.
    fn set_role(&mut self, site: Site, role: Option<Role>)
        requires { site < 16 }
        ensures { self.new ≡ with_rows self.old self.old.sent (with_role self.old site role) }
    {
        take_role(&mut self.rows.row[site as usize], role);
    }

    // An admitted step is made: nothing in here is refused.
    fn apply<V: Vault>(&mut self, vault: &mut V, list: &mut [Message], step: Step)
        requires { Within (world_with self.old (V.stored vault.old) list.old) (V.stored vault.old) (plain_step step) }
        ensures becomes { Becomes (applied (world_with self.old (V.stored vault.old) list.old) (plain_step step)) true (V.stored vault.old) (V.stored vault.new) self.new list.new }
        ensures tied { V.tied vault.old vault.new }
    {
        vault.write(step.site, step.own).unwrap();
        self.set_role(step.site, step.role);
        let broadcast = Broadcast {
            kind: step.kind,
            number: step.own.elected,
            sender: step.site,
            to: step.to,
        };
        self.sent = broadcast.send(list, self.sent).unwrap();
    }

    // What was asked for is done if there is room for it.
    pub(super) fn carry<V: Vault>(
        &mut self,
        vault: &mut V,
        list: &mut [Message],
        asked: Result<Step, Refusal>,
    ) -> Result<(), Refusal>
        requires { IfOk asked (λ t. Near (V.stored vault.old).sites t.site) }
        ensures answer { result ≡ answer_of (carried self.old (V.stored vault.old) list.old (planned asked)) }
        ensures becomes { Becomes (done self.old (V.stored vault.old) list.old (planned asked)) (accepted result) (V.stored vault.old) (V.stored vault.new) self.new list.new }
        ensures tied { V.tied vault.old vault.new }
    {
        let step = self.admit(vault, list, asked)?;
        self.apply(vault, list, step);
        Ok(())
    }
}
