ghost use Rattle.std.specs.Prelude.{Some};
ghost use Rattle.answers.specs.Texts.{yes_text, record_text, numbers_text, tables_text, taken_text, asks_text};
ghost use Rattle.board.specs.Left.{shown};
ghost use Rattle.state.specs.States.{held};

use board::{Asks, Board};
use history::Resolver;
use listings::{Hex, Rows};
use record::Certificate;
use std::fmt;

/// Whether something is so.
#[derive(Clone, Copy)]
struct Truth(bool);

impl fmt::Display for Truth {
    ghost output = { λ t. Some (yes_text t.0) };

    fn fmt<W: fmt::Write>(&self, f: &mut fmt::Formatter<W>) -> fmt::Result {
        f.write_str(if self.0 { "yes" } else { "no" })
    }
}

/// A record: its kind, its view and its bytes.
#[derive(Clone, Copy)]
pub struct Written(pub Certificate);

impl fmt::Display for Written {
    ghost output = { λ r. Some (record_text r.0) };

    fn fmt<W: fmt::Write>(&self, f: &mut fmt::Formatter<W>) -> fmt::Result {
        let header = self.0.header();
        let bytes = self.0.write();
        write!(f, "{} {} {}", header.kind, header.view, Hex(&bytes))
    }
}

/// The numbers of a state.
#[derive(Drop)]
pub struct Numbers<'r, 'a>(pub &'r Resolver<'a, Certificate>);

impl fmt::Display for Numbers<'_, '_> {
    ghost output = { λ n. Some (numbers_text (held n.0.now.calls.state)) };

    fn fmt<W: fmt::Write>(&self, f: &mut fmt::Formatter<W>) -> fmt::Result {
        let state = self.0.state();
        let (floor, current) = (state.floor(), state.current_view());
        let (cursor, finalized) = (state.cursor(), state.last_finalized());
        let replay = Truth(state.is_replaying());
        write!(
            f,
            "floor {floor} current {current} cursor {cursor} finalized {finalized} replay {replay}"
        )
    }
}

/// The tables of a state.
#[derive(Drop)]
pub struct Tables<'r, 'a>(pub &'r Resolver<'a, Certificate>);

impl fmt::Display for Tables<'_, '_> {
    ghost output = { λ t. Some (tables_text (held t.0.now.calls.state)) };

    fn fmt<W: fmt::Write>(&self, f: &mut fmt::Formatter<W>) -> fmt::Result {
        let state = self.0.state();
        let nullifications = Rows(state.nullifications());
        let pending = Rows(state.pending_notarizations());
        let certified = Rows(state.certified_notarizations());
        let failed = Rows(state.uncertifiable_notarizations());
        write!(
            f,
            " nullifications {nullifications} pending {pending} certified {certified} failed {failed}"
        )
    }
}

/// Whether a delivered record was taken.
#[derive(Clone, Copy)]
pub struct Taking(pub bool);

impl fmt::Display for Taking {
    ghost output = { λ t. Some (taken_text t.0) };

    fn fmt<W: fmt::Write>(&self, f: &mut fmt::Formatter<W>) -> fmt::Result {
        f.write_str(if self.0 { " taken" } else { " not taken" })
    }
}

/// The open asks of a board.
#[derive(Drop)]
pub struct OpenAsks<'b, B>(pub &'b B);

impl<B: Board> fmt::Display for OpenAsks<'_, B> {
    ghost output = { λ a. Some (asks_text (shown (B.asks a.0.now))) };

    fn fmt<W: fmt::Write>(&self, f: &mut fmt::Formatter<W>) -> fmt::Result {
        let mut asks = Asks::new(self.0);
        let Some(first) = asks.next() else {
            return f.write_str("none");
        };
        write!(f, "{first}")?;
        for asked in asks {
            write!(f, ", {asked}")?;
        }
        Ok(())
    }
}
