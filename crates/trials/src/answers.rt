use refusal::Refusal;

// The number of a call's refusal, 0 where it is not refused.
pub(crate) fn number_of<T: Drop>(called: Result<T, Refusal>) -> u8 {
    match called {
        Ok(_) => 0,
        Err(refusal) => refusal.into(),
    }
}
