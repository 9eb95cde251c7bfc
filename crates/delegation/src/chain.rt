// Chains of certificates, searched from the signer back to their beginnings.
//
// A certificate is marked where it leads to the signer. The search begins with those that name the signer, with or without
// their flag, and goes on with those that have their flag and name the issuer of a marked one, until no more are marked.
// Marks stand beside certificates and not beside hashes: a certificate without its flag hides none that has it. They are an array of
// their own, since there is no heap and the certificates are only lent.
ghost use Rattle.std.specs.Prelude.{◌≡◌, ℕ, ◌<◌, ◌≤◌, true, ◌&&◌, length, MatchOption, IfSome, ◌≢◌, slice_index_or};
ghost use Rattle.std.specs.Option.{option_copied};
ghost use Rattle.machine.specs.Delegation.{may_begin, authorised};
ghost use Rattle.delegation.specs.Marks.{LeadsTo, leads, applies, names, looked, marked, any_leading, Tells, by_chain};
ghost use Rattle.delegation.specs.declared.types.Mark.TheVariants.{Untried, Open};

use crate::hashes::is_same;
use crate::types::{Mark, Question};
use records::Certificate;

impl Question<'_> {
    // Whether the certificate names the issuer of the one that it is to stand before, and has its flag. As the last one it is
    // to name the signer. The two certificates are no pair: in a walk the one before becomes the next.
    fn is_named(&self, link: &Certificate, next: Option<&Certificate>) -> bool
        ensures { result ≡ names self.now (option_copied next.entry) link.now }
    {
        match next {
            None => is_same(&link.subject, self.signer),
            Some(next) => is_same(&link.subject, &next.issuer) && link.scope.delegate,
        }
    }

    // What a look at the certificate tells: whether it leads to the signer, as the last link or before another.
    fn look(&self, link: &Certificate, mark: Mark, next: Option<&Certificate>) -> Mark
        ensures { result ≡ looked self.now (option_copied next.entry) link.now mark }
    {
        if mark != Mark::Untried {
            return mark;
        }
        if !self.is_named(link, next) {
            return Mark::Untried;
        }
        if self.applies(&link.scope) {
            Mark::Open
        } else {
            Mark::Void
        }
    }

    // Looks at each certificate.
    fn mark_links(&self, marks: &mut [Mark; 16], next: Option<&Certificate>)
        ensures { marks.new ≡ marked (looked self.now (option_copied next.entry)) self.now.tables.certificates marks.old }
    {
        // By the place: after `marks.iter_mut().zip(self.links)` a proof knows nothing of the marks, and the goal `returns` stays open.
        for (i, link) in self.links.iter().enumerate() {
            marks[i] = self.look(link, marks[i], next);
        }
    }

    // The place of a certificate whose issuer is yet to be followed.
    fn next_open(&self, marks: &[Mark; 16]) -> Option<usize>
        ensures { MatchOption result ((k : ℕ) → k < length self.now.tables.certificates → slice_index_or marks.now k Untried ≢ Open) (λ i. (i < length self.now.tables.certificates) × (slice_index_or marks.now i Untried ≡ Open)) }
    {
        marks[..self.links.len()]
            .iter()
            .position(|mark| *mark == Mark::Open)
    }

    // Marks the certificates that lead to the signer. Each turn follows one of them, so that there are as many turns as certificates at most.
    fn leading(&self) -> [Mark; 16]
        ensures tells { Tells self.now result }
        ensures enough { length self.now.tables.certificates ≤ length result }
    {
        let mut marks = [Mark::Untried; 16];
        self.mark_links(&mut marks, None);
        while let Some(i) = self.next_open(&marks) {
            marks[i] = Mark::Followed;
            self.mark_links(&mut marks, Some(&self.links[i]));
        }
        marks
    }

    // Whether a chain may begin with the issuer of a certificate that leads.
    fn begins(&self, marks: &[Mark; 16]) -> bool
        ensures { result ≡ any_leading (λ c. may_begin self.now.tables self.now.clock self.now.name c.issuer) self.now.tables.certificates marks.now }
    {
        self.links
            .iter()
            .zip(marks)
            .any(|(link, mark)| self.is_beginning(link, *mark))
    }

    fn is_beginning(&self, link: &Certificate, mark: Mark) -> bool
        ensures { result ≡ (leads mark && may_begin self.now.tables self.now.clock self.now.name link.now.issuer) }
    {
        mark.leads() && self.may_begin(&link.issuer)
    }

    // Whether the certificate applies, and names whom it is to lead to.
    fn is_link(&self, link: &Certificate, next: Option<&Certificate>) -> bool
        ensures { result ≡ (names self.now (option_copied next.entry) link.now && applies self.now link.now) }
    {
        self.is_named(link, next) && self.applies(&link.scope)
    }

    // A walk from the last certificate to the first, and on from the first to the last. A chain whose links are kept in their
    // order, or in the opposite order, is walked to its beginning.
    fn walk_back(&self) -> Option<&Certificate>
        ensures { IfSome (option_copied result) (LeadsTo self.now) }
    {
        let mut first = None;
        for link in self.links.iter().rev().chain(self.links) {
            if self.is_link(link, first) {
                first = Some(link);
            }
        }
        first
    }

    // Whether that walk comes to a certificate with whose issuer a chain may begin.
    fn is_walked(&self) -> bool
        ensures { result ≡ true → by_chain self.now ≡ true }
    {
        match self.walk_back() {
            None => false,
            Some(first) => self.may_begin(&first.issuer),
        }
    }

    // Whether a chain ends with the signer.
    fn by_chain(&self) -> bool
        ensures { result ≡ by_chain self.now }
    {
        self.is_walked() || self.begins(&self.leading())
    }

    // Owners first, then the entries of the signer, then the chains.
    #[tactic(auto, unfolding(machine::specs::Delegation::authorised))]
    pub(crate) fn is_authorised(&self) -> bool
        ensures { result ≡ authorised self.now.tables self.now.clock self.now.name self.now.signer }
    {
        self.is_owner(self.signer) || self.is_entered(self.signer) || self.by_chain()
    }
}
