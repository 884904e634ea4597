ghost use Rattle.std.specs.Prelude.{◌≡◌, ◌+◌, ◌^◌, ◌≤◌, Some};
ghost use Rattle.peer_rounds.specs.Laws.{LacksNothing, is_settled};
ghost use Rattle.catching_up.specs.Standings.{unsettled, bare_views, standing_of};
ghost use Rattle.catching_up.specs.Texts.{standing_text};
ghost use Rattle.state.specs.States.{held, term};

use effects::Kind;
use one_member::Member;
use std::fmt;
use views::View;

/// How far a member has come.
#[derive(Clone, Copy, Debug, PartialEq, Eq)]
pub struct Standing {
    pub current: View,
    /// How many of the views from 1 to the current one are settled for nullifications.
    pub settled: u64,
    /// How many of the views between the floor and the current one are not.
    pub bare: u64,
}

/// Whether a view is settled for nullifications.
fn is_settled<B>(member: &Member<B>, view: View) -> bool
    ensures { result ≡ is_settled (term member.now.resolver.calls.state) (held member.now.resolver.calls.state) view }
{
    member.resolver.settled(view, Kind::Nullification)
}

/// How many of so many views from one on are not settled for nullifications.
fn unsettled<B>(member: &Member<B>, low: View, views: u64) -> u64
    requires { low + views ≤ 2 ^ 64 }
    ensures count { result ≡ unsettled (term member.now.resolver.calls.state) (held member.now.resolver.calls.state) low views }
    ensures most { result ≤ views }
{
    let mut count = 0;
    for i in 0..views {
        if !is_settled(member, low + i) {
            count += 1;
        }
    }
    count
}

/// How many of the views above the floor and below the current one are not settled for nullifications.
fn bare<B>(member: &Member<B>) -> u64
    ensures { result ≡ bare_views (term member.now.resolver.calls.state) (held member.now.resolver.calls.state) }
{
    let state = member.resolver.state();
    let (floor, current) = (state.floor(), state.current_view());
    if current <= floor {
        return 0;
    }
    unsettled(member, floor + 1, current - floor - 1)
}

/// How far a member has come.
pub fn how_far<B>(member: &Member<B>) -> Standing
    ensures value { result ≡ standing_of (term member.now.resolver.calls.state) (held member.now.resolver.calls.state) }
    ensures none_bare { LacksNothing member.now → result.bare ≡ 0 }
{
    let current = member.resolver.state().current_view();
    Standing {
        current,
        settled: current - unsettled(member, 1, current),
        bare: bare(member),
    }
}

impl fmt::Display for Standing {
    ghost output = { λ s. Some (standing_text s) };

    fn fmt<W: fmt::Write>(&self, f: &mut fmt::Formatter<W>) -> fmt::Result {
        let Standing {
            current,
            settled,
            bare,
        } = *self;
        write!(
            f,
            "views settled for nullifications {settled} of {current}, above the floor and below {current} without one {bare}"
        )
    }
}
