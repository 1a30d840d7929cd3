// The flags of a query.

// Which entries to ignore in a query: those whose payload is not all there, those of an empty payload. By default nothing is (`no_flags`).
#[derive(Clone, Copy, PartialEq, Eq, Debug, Default)]
pub struct QueryIgnoreParams {
    pub ignore_incomplete_payloads: bool,
    pub ignore_empty_payloads: bool,
}
