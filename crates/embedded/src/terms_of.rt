ghost use Rattle.std.specs.Prelude.{◌≡◌, cond, Ok as Fine};
ghost use Rattle.terms.specs.Terms.{start, covering};
ghost use Rattle.embedded.specs.Terms.{told as tells, with_length, end_of, next_of};

use crate::Told;
use refusals::Refusal;
use terms::{Fault, TermLength};

/// The first view of a term.
fn start(length: u32, view: u64) -> Result<u64, Fault>
    ensures { result ≡ with_length length (Fine (start length view)) }
{
    Ok(TermLength::new(length)?.term_start(view))
}

/// The last view of a term.
fn end(length: u32, view: u64) -> Result<u64, Fault>
    ensures { result ≡ with_length length (end_of length view) }
{
    TermLength::new(length)?.term_end(view)
}

/// The first view of the next term.
fn next(length: u32, view: u64) -> Result<u64, Fault>
    ensures { result ≡ with_length length (next_of length view) }
{
    TermLength::new(length)?.next_term_start(view)
}

/// Whether a nullification covers a view, 1 or 0.
fn covers(length: u32, nullified: u64, view: u64) -> Result<u64, Fault>
    ensures { result ≡ with_length length (Fine (cond (covering length nullified view) 1 0)) }
{
    Ok(u64::from(TermLength::new(length)?.covers(nullified, view)))
}

/// What is told of a number, or of why there is none.
fn told(number: Result<u64, Fault>) -> Told
    ensures { result ≡ tells number }
{
    match number {
        Ok(number) => Told::value(number),
        Err(fault) => Told::refused(Refusal::from(fault)),
    }
}

/// The first view of the term of `view`, where terms have `length` views.
#[unsafe(no_mangle)]
pub extern "C" fn resolver_term_start(length: u32, view: u64) -> Told
    ensures { result ≡ tells (with_length length (Fine (start length view))) }
{
    told(start(length, view))
}

/// The last view of the term of `view`.
#[unsafe(no_mangle)]
pub extern "C" fn resolver_term_end(length: u32, view: u64) -> Told
    ensures { result ≡ tells (with_length length (end_of length view)) }
{
    told(end(length, view))
}

/// The first view of the term after that of `view`.
#[unsafe(no_mangle)]
pub extern "C" fn resolver_next_term_start(length: u32, view: u64) -> Told
    ensures { result ≡ tells (with_length length (next_of length view)) }
{
    told(next(length, view))
}

/// Whether a nullification at `nullified` covers `view`: 1 or 0.
#[unsafe(no_mangle)]
pub extern "C" fn resolver_covers(length: u32, nullified: u64, view: u64) -> Told
    ensures { result ≡ tells (with_length length (Fine (cond (covering length nullified view) 1 0))) }
{
    told(covers(length, nullified, view))
}
