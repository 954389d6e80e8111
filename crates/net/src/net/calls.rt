// The net as its users see it. This project asks that each call names its answer, the records, the roles, the list, what is left
// and the memory, so the clauses of the calls are not one.
ghost use Rattle.std.specs.Prelude.{◌≡◌, if◌then◌else◌, Ok, Err, IfOk, nat_lt};
ghost use Rattle.sites.specs.declared.refusal.Refusal.TheVariants.{UnknownSite};
ghost use Rattle.rules.specs.Calls.{answers, leaves, Spends};
ghost use Rattle.rules.specs.World.{row_at, role_answer};
ghost use Rattle.rules.specs.declared.call.Call.TheVariants.{Begin, Vote as VoteOn, Deliver, Advance};
ghost use Rattle.net.specs.Bounds.{Bounded};
ghost use Rattle.net.specs.Nets.{opening};

use super::Net;
use quorum::Policy;
use rules::call::Vote;
use rules::message::Message;
use rules::role::Role;
use rules::rows::{Row, Rows};
use sites::roster::is_seated;
use sites::set::SITE_PLACES;
use sites::{Refusal, Site};
use vault::Vault;

impl Net {
    // A new net: all sites up, no role, nothing sent.
    pub fn new(sites: u32, first: Site) -> Result<Net, Refusal>
        ensures is { result ≡ opening sites first }
        ensures bounded { IfOk result (λ n. Bounded n.sites n.first n.sent) }
    {
        if !is_seated(sites, first) {
            return Err(Refusal::SiteCount);
        }
        let row = Row {
            up: true,
            role: None,
        };
        Ok(Net {
            sites,
            first,
            sent: 0,
            rows: Rows {
                row: [row; SITE_PLACES],
            },
        })
    }

    // How many sites there are.
    pub fn sites(&self) -> u32
        ensures is { result ≡ self.now.sites }
        ensures bounded { Bounded self.now.sites self.now.first self.now.sent }
    {
        self.sites
    }

    // Is the site up?
    pub fn is_up(&self, site: Site) -> Result<bool, Refusal>
        ensures is { result ≡ (if nat_lt site self.now.sites then Ok (row_at self.now site).up else Err UnknownSite) }
        ensures bounded { Bounded self.now.sites self.now.first self.now.sent }
    {
        self.is_bounded();
        // Taken apart here: for `?` on a row whose role is not used, the checker answers with a fault of its own.
        match self.known_row(site) {
            Ok(Row { up, .. }) => Ok(up),
            Err(refusal) => Err(refusal),
        }
    }

    // What the site is doing as a coordinator, if it is one.
    pub fn role(&self, site: Site) -> Result<Option<Role>, Refusal>
        ensures is { result ≡ role_answer self.now site }
        ensures bounded { Bounded self.now.sites self.now.first self.now.sent }
    {
        self.is_bounded();
        Ok(self.known_row(site)?.role)
    }

    // What holds of every net, told to whoever sees no field. It does nothing.
    fn is_bounded(&self)
        ensures { Bounded self.now.sites self.now.first self.now.sent }
    {
        let _ = &self.sites;
    }

    // The first coordinator starts the approval with its own vote.
    pub fn begin<P: Policy, V: Vault>(
        &mut self,
        policy: &P,
        vault: &mut V,
        list: &mut [Message],
        vote: Vote,
    ) -> Result<(), Refusal>
        ensures answer { result ≡ answers (P.quorums policy.now) (V.stored vault.old) self.old list.old (Begin vote) }
        ensures records { (V.stored vault.new).entries ≡ (leaves (P.quorums policy.now) (V.stored vault.old) self.old list.old (Begin vote)).entries }
        ensures roles { self.new ≡ (leaves (P.quorums policy.now) (V.stored vault.old) self.old list.old (Begin vote)).net }
        ensures list { list.new ≡ (leaves (P.quorums policy.now) (V.stored vault.old) self.old list.old (Begin vote)).messages }
        ensures left { Spends (P.quorums policy.now) (V.stored vault.old) self.old list.old (Begin vote) (V.stored vault.new).left }
        ensures sites { (V.stored vault.new).sites ≡ (V.stored vault.old).sites }
        ensures memory { V.tied vault.old vault.new }
        ensures bounded { Bounded self.new.sites self.new.first self.new.sent }
    {
        let asked = self.find_begin(policy, vault, list, vote);
        let answer = self.carry(vault, list, asked);
        self.is_bounded();
        answer
    }

    // The receiver of the start at a place votes.
    pub fn vote<P: Policy, V: Vault>(
        &mut self,
        policy: &P,
        vault: &mut V,
        list: &mut [Message],
        place: u32,
        vote: Vote,
    ) -> Result<(), Refusal>
        ensures answer { result ≡ answers (P.quorums policy.now) (V.stored vault.old) self.old list.old (VoteOn place vote) }
        ensures records { (V.stored vault.new).entries ≡ (leaves (P.quorums policy.now) (V.stored vault.old) self.old list.old (VoteOn place vote)).entries }
        ensures roles { self.new ≡ (leaves (P.quorums policy.now) (V.stored vault.old) self.old list.old (VoteOn place vote)).net }
        ensures list { list.new ≡ (leaves (P.quorums policy.now) (V.stored vault.old) self.old list.old (VoteOn place vote)).messages }
        ensures left { Spends (P.quorums policy.now) (V.stored vault.old) self.old list.old (VoteOn place vote) (V.stored vault.new).left }
        ensures sites { (V.stored vault.new).sites ≡ (V.stored vault.old).sites }
        ensures memory { V.tied vault.old vault.new }
        ensures bounded { Bounded self.new.sites self.new.first self.new.sent }
    {
        let asked = self.find_vote(policy, vault, list, place, vote);
        let answer = self.carry(vault, list, asked);
        self.is_bounded();
        answer
    }

    // The message at a place, which is no start, is delivered to its receiver.
    pub fn deliver<P: Policy, V: Vault>(
        &mut self,
        policy: &P,
        vault: &mut V,
        list: &mut [Message],
        place: u32,
    ) -> Result<(), Refusal>
        ensures answer { result ≡ answers (P.quorums policy.now) (V.stored vault.old) self.old list.old (Deliver place) }
        ensures records { (V.stored vault.new).entries ≡ (leaves (P.quorums policy.now) (V.stored vault.old) self.old list.old (Deliver place)).entries }
        ensures roles { self.new ≡ (leaves (P.quorums policy.now) (V.stored vault.old) self.old list.old (Deliver place)).net }
        ensures list { list.new ≡ (leaves (P.quorums policy.now) (V.stored vault.old) self.old list.old (Deliver place)).messages }
        ensures left { Spends (P.quorums policy.now) (V.stored vault.old) self.old list.old (Deliver place) (V.stored vault.new).left }
        ensures sites { (V.stored vault.new).sites ≡ (V.stored vault.old).sites }
        ensures memory { V.tied vault.old vault.new }
        ensures bounded { Bounded self.new.sites self.new.first self.new.sent }
    {
        self.is_bounded();
        let message = self.find_message(policy, vault, list, place)?;
        let answer = self.act_on(vault, list, message);
        self.is_bounded();
        answer
    }

    // A coordinator takes its next step.
    pub fn advance<P: Policy, V: Vault>(
        &mut self,
        policy: &P,
        vault: &mut V,
        list: &mut [Message],
        site: Site,
    ) -> Result<(), Refusal>
        ensures answer { result ≡ answers (P.quorums policy.now) (V.stored vault.old) self.old list.old (Advance site) }
        ensures records { (V.stored vault.new).entries ≡ (leaves (P.quorums policy.now) (V.stored vault.old) self.old list.old (Advance site)).entries }
        ensures roles { self.new ≡ (leaves (P.quorums policy.now) (V.stored vault.old) self.old list.old (Advance site)).net }
        ensures list { list.new ≡ (leaves (P.quorums policy.now) (V.stored vault.old) self.old list.old (Advance site)).messages }
        ensures left { Spends (P.quorums policy.now) (V.stored vault.old) self.old list.old (Advance site) (V.stored vault.new).left }
        ensures sites { (V.stored vault.new).sites ≡ (V.stored vault.old).sites }
        ensures memory { V.tied vault.old vault.new }
        ensures bounded { Bounded self.new.sites self.new.first self.new.sent }
    {
        let asked = self.find_advance(policy, vault, list, site);
        let answer = self.carry(vault, list, asked);
        self.is_bounded();
        answer
    }
}
