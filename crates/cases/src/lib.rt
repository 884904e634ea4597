//! Twelve worked cases with terms of four views. Each is proved of the definitions that the contracts use.
#![tactic(auto)]

ghost use Rattle.std.specs.Prelude.{◌≡◌, ◌^◌, ◌≤◌, true, not, length, Ok as Fine};
ghost use Rattle.std.specs.List.{list_all};
ghost use Rattle.cases.specs.Holding.{holds, all_hold, accepted};
ghost use Rattle.cases.specs.Run.{first};
ghost use Rattle.cases.specs.Table.{four, run, cases, term};
ghost use Rattle.terms.specs.Terms.{views as views_of, covering};

use terms::{Fault, TermLength};
use views::View;

/// How many cases there are. Every one holds, and the rules accept every call of the run.
pub fn worked_cases() -> usize
    ensures every_case_holds { all_hold cases ≡ true }
    ensures every_call_is_accepted { accepted (first (length run)) ≡ true }
    ensures count { result ≡ length cases }
{
    12
}

/// Whether a term starts and ends at these views, and the next one starts at that.
fn is_term(l: TermLength, view: View, start: View, end: View, next: View) -> Result<bool, Fault>
    requires four { views_of l ≡ four }
    requires low { view ≤ 2 ^ 62 }
    ensures { result ≡ Fine (holds (term view start end next)) }
{
    let ends = l.term_end(view)? == end;
    let goes_on = l.next_term_start(view)? == next;
    Ok(l.term_start(view) == start && (ends && goes_on))
}

/// Whether a nullification covers each of these views.
fn covers_all(l: TermLength, nullified: View, views: &[View]) -> bool
    requires four { views_of l ≡ four }
    ensures { result ≡ list_all (covering four nullified) views.now }
{
    views.iter().all(|view| l.covers(nullified, *view))
}

/// Whether it covers none of them.
fn covers_none(l: TermLength, nullified: View, views: &[View]) -> bool
    requires four { views_of l ≡ four }
    ensures { result ≡ list_all (λ v. not (covering four nullified v)) views.now }
{
    views.iter().all(|view| !l.covers(nullified, *view))
}

/// Whether cases 1 to 4 hold as the crate `terms` runs them. They do.
#[tactic(auto, unfolding(terms::specs::Terms::start, terms::specs::Terms::end, terms::specs::Terms::next, terms::specs::Terms::covering, terms::specs::Terms::same_term))]
pub fn term_cases() -> Result<bool, Fault>
    ensures { result ≡ Fine true }
{
    let four = TermLength::new(4)?;
    let first = is_term(four, 0, 0, 0, 1)?;
    let second = is_term(four, 4, 1, 4, 5)?;
    let third = is_term(four, 5, 5, 8, 9)?;
    let fourth = covers_all(four, 6, &[6, 7, 8]) && covers_none(four, 6, &[5, 9]);
    Ok(first && second && third && fourth)
}
