//! Quorums: which sets of sites may commit an approval and which may abort it.
#![tactic(auto)]

ghost use Rattle.std.specs.Prelude.{◌≡◌};
ghost use Rattle.quorum.specs.Quorums.{Quorums, Crossing, Known};

use sites::SiteSet;

// Which sets of sites may commit and which may abort: two questions, as the rules ask them.
pub trait Policy {
    // The number of sites, the sets that may commit and those that may abort.
    ghost quorums: { Self → Quorums };

    // How many sites there are.
    fn sites(&self) -> u32
        ensures { result ≡ (quorums self.now).sites };

    // May these sites commit?
    fn is_commit_quorum(&self, group: SiteSet) -> bool
        ensures { result ≡ (quorums self.now).commits group };

    // May these sites abort?
    fn is_abort_quorum(&self, group: SiteSet) -> bool
        ensures { result ≡ (quorums self.now).aborts group };

    // Every commit quorum shares a site with every abort quorum.
    ghost crossing: { (p : Self) → Crossing (quorums p) };

    // A set with an unknown site is a quorum of neither kind.
    ghost commits_known: { (p : Self) → Known (quorums p).sites (quorums p).commits };

    ghost aborts_known: { (p : Self) → Known (quorums p).sites (quorums p).aborts };
}
