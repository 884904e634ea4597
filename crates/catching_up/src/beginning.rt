ghost use Rattle.std.specs.Prelude.{◌≡◌, ◌≤◌, true, [], None};
ghost use Rattle.peer_rounds.specs.Lives.{Lived};
ghost use Rattle.effects.specs.Lists.{entries, places as places_in};
ghost use Rattle.queue.specs.Pendings.{queue_of};
ghost use Rattle.state.specs.States.{held, term, epoch_of, fits};
ghost use Rattle.store.specs.Fresh.{fresh};
ghost use Rattle.terms.specs.Terms.{views as views_of};

use board::Board;
use one_member::{Admitted, Member};
use places::Places;

/// A fresh member with this board. Every history of its calls begins here, if the board has nothing open.
pub fn fresh<B: Board>(places: &mut Places, admitted: Admitted, board: B) -> Member<'_, B>
    ensures values { held result.resolver.calls.state ≡ fresh }
    ensures fixed { (term result.resolver.calls.state ≡ views_of admitted.term_length) × (epoch_of result.resolver.calls.state ≡ admitted.epoch) × (result.verifier ≡ admitted.verifier) × (result.seats ≡ admitted.seats) }
    ensures board { result.board ≡ board }
    ensures empty { entries result.effects ≡ [] }
    ensures queue { queue_of result.queue ≡ record { finalization = None; messages = [] } }
    ensures fits { fits result.resolver.calls.state ≡ true }
    ensures room { 256 ≤ places_in result.effects }
    ensures lives { B.asks board ≡ [] → Lived B.asks result }
{
    Member::new(admitted, places.lend(), board)
}
