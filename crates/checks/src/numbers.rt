use refusals::Refusal;

/// The number of the refusal, or 0 where there is none.
pub(crate) fn refusal_number<T: Drop, F: Into<Refusal>>(answer: Result<T, F>) -> u8 {
    answer.map_or_else(
        |fault| {
            let refusal: Refusal = fault.into();
            refusal.number
        },
        |_| 0,
    )
}
