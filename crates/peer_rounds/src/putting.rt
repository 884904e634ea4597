ghost use Rattle.std.specs.Prelude.{◌≡◌, true, map, vec_items, IfOk};
ghost use Rattle.answers.specs.Answered.{done_of, judged_of};
ghost use Rattle.peer_rounds.specs.Laws.{SettledIsClosed, AllClosed, is_complete};
ghost use Rattle.peer_rounds.specs.Lives.{Lived};
ghost use Rattle.peer_rounds.specs.Puts.{at_view, ask_in, is_new, PassedIf, CameOf, PutTo};
ghost use Rattle.one_member.specs.Carried.{Called, Carried};
ghost use Rattle.orders.specs.Orders.{bring, judge};
ghost use Rattle.record.specs.Certificates.{written};
ghost use Rattle.state.specs.Serving.{served as serves};
ghost use Rattle.state.specs.States.{held, term};

use crate::{Came, Put};
use board::{Ask, Asks, Board, Open};
use one_member::Member;
use record::{Certificate, Kind, Proof, Round};
use resolver::{Delivered, Fault};
use std::alloc::{AllocError, Global};
use views::View;

/// The asks that are open at a view.
fn asks_at<B: Board>(heap: Global, board: &B, view: View) -> Result<Vec<Open>, AllocError>
    ensures { IfOk result (λ os. vec_items os ≡ at_view view (B.asks board.now)) }
{
    Asks::new(board)
        .filter(|open| open.view == view)
        .collect(heap)
}

/// What open asks want.
fn wanted(heap: Global, asks: &[Open]) -> Result<Vec<Ask>, AllocError>
    ensures { IfOk result (λ qs. vec_items qs ≡ map ask_in asks.now) }
{
    asks.iter().map(|open| open.ask).collect(heap)
}

/// The record that a member serves for a view, if it holds one.
fn served<B>(peer: &Member<B>, view: View) -> Option<Certificate>
    ensures { result ≡ serves (term peer.now.resolver.calls.state) view (held peer.now.resolver.calls.state) }
{
    let mut place = Certificate::Nullification {
        round: Round { epoch: 0, view: 0 },
        proof: Proof([0; 32]),
    };
    if peer.resolver.produce(view, &mut place) {
        Some(place)
    } else {
        None
    }
}

/// Delivers a record to a member.
fn deliver<B: Board>(
    member: &mut Member<B>,
    view: View,
    asks: &[Ask],
    certificate: Certificate,
) -> Result<Delivered, Fault>
    ensures carried { Carried B.asks (judged_of result) member.old member.new (bring view asks.now (written certificate)) }
    ensures lives { Lived B.asks member.old → Lived B.asks member.new }
{
    member.resolver.deliver(
        &mut member.board,
        &member.verifier,
        view,
        &certificate.write(),
        asks,
        &mut member.effects,
    )
}

/// Whether a record is a notarization that was taken.
fn is_new(certificate: Certificate, delivered: Result<Delivered, Fault>) -> bool
    ensures { result ≡ is_new certificate delivered }
{
    match delivered {
        Ok(Delivered { taken, .. }) => taken && certificate.header().kind == Kind::Notarization,
        Err(_) => false,
    }
}

/// Has a member record that a notarization passes.
fn pass<B: Board>(member: &mut Member<B>, certificate: Certificate) -> Result<(), Fault>
    ensures called { Called B.asks (done_of result) member.old member.new (judge true (written certificate)) }
    ensures lives { Lived B.asks member.old → Lived B.asks member.new }
{
    member.resolver.certified(
        &mut member.board,
        &certificate.write(),
        true,
        &mut member.effects,
    )
}

/// Has a member record that a notarization passes, if it is new.
fn pass_if<B: Board>(
    member: &mut Member<B>,
    new: bool,
    certificate: Certificate,
) -> Option<Result<(), Fault>>
    ensures passed { PassedIf B.asks new certificate result member.old member.new }
    ensures lives { Lived B.asks member.old → Lived B.asks member.new }
{
    if new {
        Some(pass(member, certificate))
    } else {
        None
    }
}

/// Delivers what a peer serves for a view to a member, for these asks. A notarization that is new to it passes.
fn bring<B: Board, C>(member: &mut Member<B>, peer: &Member<C>, view: View, asks: &[Ask]) -> Came
    ensures came { CameOf B.asks peer.now view asks.now result member.old member.new }
    ensures lives { Lived B.asks member.old → Lived B.asks member.new }
{
    let Some(record) = served(peer, view) else {
        return Came::Nothing;
    };
    let delivered = deliver(member, view, asks, record);
    let new = is_new(record, delivered);
    let passed = pass_if(member, new, record);
    Came::Brought {
        record,
        delivered,
        passed,
    }
}

/// Puts all asks that are open at a view to a peer, and delivers what comes back. Where memory is short nothing happens.
pub fn put<B: Board, C>(
    heap: Global,
    member: &mut Member<B>,
    peer: &Member<C>,
    view: View,
) -> Result<Put, AllocError>
    ensures put { IfOk result (λ p. PutTo B.asks peer.now view p member.old member.new) }
    ensures complete { IfOk result (λ p. Lived B.asks member.old → is_complete p.came ≡ true → AllClosed B.asks view (vec_items p.asks) member.new) }
    ensures settled_is_closed { IfOk result (λ _. Lived B.asks member.old → SettledIsClosed B.asks member.new) }
    ensures lives { Lived B.asks member.old → Lived B.asks member.new }
{
    let asks = asks_at(heap, &member.board, view)?;
    let wanted = wanted(heap, asks.as_slice())?;
    let came = bring(member, peer, view, wanted.as_slice());
    Ok(Put { asks, came })
}
