ghost use Rattle.std.specs.Prelude.{◌≡◌, ◌≤◌, true, Ok as Fine, MatchResult};
ghost use Rattle.effects.specs.Lists.{places};
ghost use Rattle.record.specs.declared.kind.Kind.TheVariants.{Notarization as Noted};
ghost use Rattle.state.specs.Answers.{refused_if, too_few, if_read, evidence_answer, verdict_answer, marker_answer};
ghost use Rattle.state.specs.Calls.{Unchanged, Evidence, Verdict, Marker};
ghost use Rattle.state.specs.States.{held as values, term, fits};
ghost use Rattle.state.specs.declared.fault.Fault.TheVariants.{TooFewPlaces as Cramped};

use crate::{Fault, State};
use effects::Effects;
use record::{Kind, Record};
use views::Viewable;

impl<'a, R: Copy + Viewable> State<'a, R> {
    /// Records evidence that passed the tests.
    fn take(&mut self, kind: Kind, held: R, effects: &mut Effects)
        requires fit { fits self.old ≡ true }
        requires room { 256 ≤ places effects.old }
        requires tested { evidence_answer (term self.old) kind held (values self.old) ≡ Fine tt }
        ensures { Evidence self.old self.new effects.old effects.new kind held }
    {
        effects.clear();
        self.store.updated(kind, held, effects);
    }

    /// Records a verdict that passed the tests.
    fn judge(&mut self, held: R, success: bool, effects: &mut Effects)
        requires fit { fits self.old ≡ true }
        requires room { 256 ≤ places effects.old }
        requires tested { verdict_answer (term self.old) success Noted (R.Viewable.viewed held) (values self.old) ≡ Fine tt }
        ensures { Verdict self.old self.new effects.old effects.new success held }
    {
        effects.clear();
        self.store.certified(held, success, effects);
    }

    /// Ends a replay that passed the test.
    fn end(&mut self, effects: &mut Effects)
        requires room { 256 ≤ places effects.old }
        requires tested { marker_answer (term self.old) (values self.old) ≡ Fine tt }
        ensures { Marker self.old self.new effects.old effects.new }
    {
        effects.clear();
        self.store.replayed(effects);
    }

    /// Records the end of replay, which every gap and every failed view has waited for.
    pub fn replayed(&mut self, effects: &mut Effects) -> Result<(), Fault>
        ensures answer { result ≡ refused_if (too_few (fits self.old) (places effects.old)) Cramped (marker_answer (term self.old) (values self.old)) }
        ensures outcome { MatchResult result (λ _. Marker self.old self.new effects.old effects.new) (λ _. Unchanged self.old self.new effects.old effects.new) }
    {
        self.test_places(effects)?;
        self.test_marker()?;
        self.end(effects);
        Ok(())
    }
}

impl<'a, R: Record> State<'a, R> {
    /// Records evidence that has been read.
    pub fn update(&mut self, certificate: R, effects: &mut Effects) -> Result<(), Fault>
        ensures answer { result ≡ refused_if (too_few (fits self.old) (places effects.old)) Cramped (evidence_answer (term self.old) (R.Record.sort certificate) certificate (values self.old)) }
        ensures outcome { MatchResult result (λ _. Evidence self.old self.new effects.old effects.new (R.Record.sort certificate) certificate) (λ _. Unchanged self.old self.new effects.old effects.new) }
    {
        self.test_places(effects)?;
        let kind = certificate.kind();
        self.test_evidence(kind, certificate)?;
        self.take(kind, certificate, effects);
        Ok(())
    }

    /// Records a verdict on a notarization that has been read.
    #[tactic(auto, unfolding(crate::specs::Answers::verdict_answer))]
    pub fn certify(
        &mut self,
        notarization: R,
        success: bool,
        effects: &mut Effects,
    ) -> Result<(), Fault>
        ensures answer { result ≡ refused_if (too_few (fits self.old) (places effects.old)) Cramped (verdict_answer (term self.old) success (R.Record.sort notarization) (R.Viewable.viewed notarization) (values self.old)) }
        ensures outcome { MatchResult result (λ _. Verdict self.old self.new effects.old effects.new success notarization) (λ _. Unchanged self.old self.new effects.old effects.new) }
    {
        self.test_places(effects)?;
        self.test_verdict(notarization.kind(), notarization.view(), success)?;
        self.judge(notarization, success, effects);
        Ok(())
    }

    /// Records evidence: a certificate that a peer sent, or that this member made.
    pub fn updated(&mut self, bytes: &[u8], effects: &mut Effects) -> Result<(), Fault>
        ensures answer { result ≡ refused_if (too_few (fits self.old) (places effects.old)) Cramped (if_read (R.Record.parsed bytes.now) (λ x. evidence_answer (term self.old) (R.Record.sort x) x (values self.old))) }
        ensures outcome { MatchResult result (λ _. (x : R) × (R.Record.parsed bytes.now ≡ Fine x) × Evidence self.old self.new effects.old effects.new (R.Record.sort x) x) (λ _. Unchanged self.old self.new effects.old effects.new) }
    {
        self.test_places(effects)?;
        let certificate = R::read(bytes)?;
        self.update(certificate, effects)
    }

    /// Records a verdict: whether a notarization passed certification. It may come before or after the notarization.
    pub fn certified(
        &mut self,
        bytes: &[u8],
        success: bool,
        effects: &mut Effects,
    ) -> Result<(), Fault>
        ensures answer { result ≡ refused_if (too_few (fits self.old) (places effects.old)) Cramped (if_read (R.Record.parsed bytes.now) (λ x. verdict_answer (term self.old) success (R.Record.sort x) (R.Viewable.viewed x) (values self.old))) }
        ensures outcome { MatchResult result (λ _. (x : R) × (R.Record.parsed bytes.now ≡ Fine x) × Verdict self.old self.new effects.old effects.new success x) (λ _. Unchanged self.old self.new effects.old effects.new) }
    {
        self.test_places(effects)?;
        let notarization = R::read(bytes)?;
        self.certify(notarization, success, effects)
    }
}
