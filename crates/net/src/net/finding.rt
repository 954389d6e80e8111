// What a call finds: all checks but those for room. Policy, vault and list are handed over one by one, as each call has them:
// a struct of the three loans would put one more name into every clause, for no fact. That a site is known to the vault
// (`Near`) stays a clause: it is about a vault of any type, and no type of the net can say it.
ghost use Rattle.std.specs.Prelude.{◌≡◌, ◌<◌, nat_lt, ◌≤◌, if◌then◌else◌, Ok, Err, IfOk, slice_index_or};
ghost use Rattle.sites.specs.declared.refusal.Refusal.TheVariants.{WrongPower, UnknownSite};
ghost use Rattle.rules.specs.Calls.{terms, if_fitting, asked_begin, asked_vote, asked_advance, found, to_deliver_at, sound};
ghost use Rattle.rules.specs.Entries.{plain};
ghost use Rattle.rules.specs.Plans.{planned};
ghost use Rattle.rules.specs.World.{world_with, row_at, no_entry};
ghost use Rattle.net.specs.Bounds.{Near};

use super::Net;
use quorum::Policy;
use rules::call::Vote;
use rules::message::{Kind, Message};
use rules::record::Record;
use rules::records::MOST_NUMBER;
use rules::rows::Row;
use rules::step::Step;
use sites::set::everyone;
use sites::{Refusal, Site};
use steps::coordinator::Coordinator;
use steps::member::Receipt;
use vault::Vault;

// The record of a site that the vault has.
pub(super) fn record_of<V: Vault>(vault: &V, site: Site) -> Record
    requires { site < (V.stored vault.now).sites }
    ensures { plain result ≡ slice_index_or (V.stored vault.now).entries site no_entry }
{
    vault.read(site).unwrap()
}

impl Net {
    // Do policy, vault and list fit the net?
    fn fit<P: Policy, V: Vault>(
        &self,
        policy: &P,
        vault: &V,
        list: &[Message],
    ) -> Result<(), Refusal>
        ensures { result ≡ if_fitting (terms (P.quorums policy.now) (V.stored vault.now)) (world_with self.now (V.stored vault.now) list.now) (Ok tt) }
    {
        if policy.sites() == self.sites && vault.sites() == self.sites && self.sent <= list.len() {
            Ok(())
        } else {
            Err(Refusal::Mismatch)
        }
    }

    // The row of a site.
    pub(super) fn row(&self, site: Site) -> Row
        requires { site < 16 }
        ensures { result ≡ row_at self.now site }
    {
        self.rows.row[site as usize]
    }

    // The row of a site that has to be known.
    pub(super) fn known_row(&self, site: Site) -> Result<Row, Refusal>
        ensures { result ≡ (if nat_lt site self.now.sites then Ok (row_at self.now site) else Err UnknownSite) }
    {
        if site >= self.sites {
            return Err(Refusal::UnknownSite);
        }
        Ok(self.row(site))
    }

    // The row of a site that has to be up.
    fn row_up(&self, site: Site) -> Result<Row, Refusal>
        requires { site < 16 }
        ensures { result ≡ (if (row_at self.now site).up then Ok (row_at self.now site) else Err WrongPower) }
    {
        let row = self.row(site);
        if !row.up {
            return Err(Refusal::WrongPower);
        }
        Ok(row)
    }

    // What begin asks of the first coordinator.
    pub(super) fn find_begin<P: Policy, V: Vault>(
        &self,
        policy: &P,
        vault: &V,
        list: &[Message],
        vote: Vote,
    ) -> Result<Step, Refusal>
        ensures is { planned result ≡ asked_begin (terms (P.quorums policy.now) (V.stored vault.now)) (world_with self.now (V.stored vault.now) list.now) vote }
        ensures near { IfOk result (λ t. Near (V.stored vault.now).sites t.site) }
    {
        self.fit(policy, vault, list)?;
        let first = self.first;
        let row = self.row_up(first)?;
        let coordinator = Coordinator {
            site: first,
            all: everyone(self.sites),
            own: record_of(vault, first),
            role: row.role,
        };
        coordinator.begin(vote)
    }

    // What advance asks of a coordinator.
    pub(super) fn find_advance<P: Policy, V: Vault>(
        &self,
        policy: &P,
        vault: &V,
        list: &[Message],
        site: Site,
    ) -> Result<Step, Refusal>
        ensures is { planned result ≡ asked_advance (terms (P.quorums policy.now) (V.stored vault.now)) (world_with self.now (V.stored vault.now) list.now) site }
        ensures near { IfOk result (λ t. Near (V.stored vault.now).sites t.site) }
    {
        self.fit(policy, vault, list)?;
        // Not `row_up`: it asks for a site below 16, which is not known from `known_row`.
        let row = self.known_row(site)?;
        if !row.up {
            return Err(Refusal::WrongPower);
        }
        let coordinator = Coordinator {
            site,
            all: everyone(self.sites),
            own: record_of(vault, site),
            role: row.role,
        };
        coordinator.advance(policy)
    }

    // The message at a place.
    fn find<P: Policy, V: Vault>(
        &self,
        policy: &P,
        vault: &V,
        list: &[Message],
        place: u32,
    ) -> Result<Message, Refusal>
        ensures is { result ≡ found (terms (P.quorums policy.now) (V.stored vault.now)) (world_with self.now (V.stored vault.now) list.now) place }
        ensures near { IfOk result (λ m. Near (V.stored vault.now).sites m.receiver) }
    {
        self.fit(policy, vault, list)?;
        if place as usize >= self.sent {
            return Err(Refusal::NoMessage);
        }
        let message = list[place as usize];
        if message.sender < self.sites
            && message.receiver < self.sites
            && 0 < message.number
            && message.number <= MOST_NUMBER
        {
            Ok(message)
        } else {
            Err(Refusal::NoMessage)
        }
    }

    // The message at a place that is no start, if its receiver is up. That vote takes starts alone is the next function's test;
    // the two differ in a word, and one of them with a parameter for it would be no plainer.
    pub(super) fn find_message<P: Policy, V: Vault>(
        &self,
        policy: &P,
        vault: &V,
        list: &[Message],
        place: u32,
    ) -> Result<Message, Refusal>
        ensures is { result ≡ to_deliver_at (terms (P.quorums policy.now) (V.stored vault.now)) (world_with self.now (V.stored vault.now) list.now) place }
        ensures near { IfOk result (λ m. Near (V.stored vault.now).sites m.receiver) }
    {
        let message = self.find(policy, vault, list, place)?;
        if matches!(message.kind, Kind::Start) {
            return Err(Refusal::WrongKind);
        }
        self.row_up(message.receiver)?;
        Ok(message)
    }

    // What a vote asks of the receiver of a start.
    pub(super) fn find_vote<P: Policy, V: Vault>(
        &self,
        policy: &P,
        vault: &V,
        list: &[Message],
        place: u32,
        vote: Vote,
    ) -> Result<Step, Refusal>
        ensures is { planned result ≡ asked_vote (terms (P.quorums policy.now) (V.stored vault.now)) (world_with self.now (V.stored vault.now) list.now) place vote }
        ensures near { IfOk result (λ t. Near (V.stored vault.now).sites t.site) }
    {
        let message = self.find(policy, vault, list, place)?;
        if !matches!(message.kind, Kind::Start) {
            return Err(Refusal::WrongKind);
        }
        let row = self.row_up(message.receiver)?;
        let receipt = Receipt {
            message,
            own: record_of(vault, message.receiver),
            role: row.role,
        };
        receipt.vote(vote)
    }
}
