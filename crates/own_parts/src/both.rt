ghost use Rattle.std.specs.Prelude.{◌&&◌};

use verifier::Verifier;

/// Accepts the records that two verifiers accept: signatures and a list, say.
#[derive(Clone, Copy, Debug)]
pub struct Both<A, B> {
    pub one: A,
    pub other: B,
}

impl<R, A: Verifier<R>, B: Verifier<R>> Verifier<R> for Both<A, B> {
    ghost accepted = { λ v r. A.Verifier.accepted v.one r && B.Verifier.accepted v.other r };

    fn accepts(&self, offered: &R) -> bool {
        self.one.accepts(offered) && self.other.accepts(offered)
    }
}
