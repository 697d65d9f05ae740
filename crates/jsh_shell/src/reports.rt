use jsh_snippet::Entry;

/// What a call of the shell came to.
#[derive(Drop)]
pub struct Report<I, O> {
    /// 0 where all went well, 2 where the words were refused, 3 where a read or an opening failed, 4
    /// where a write failed, 5 for want of memory, 6 at a limit.
    pub status: u8,
    /// The one history.
    pub journal: Vec<Entry>,
    /// A report for each client that was entered.
    pub clients: Vec<ClientReport<I, O>>,
    /// The file of the journal, where one was named.
    pub journal_sink: Option<O>,
    /// 4 or 5 where the writing of the journal ended so, else 0.
    pub journal_status: u8,
}

/// What a client came to, with its streams.
#[derive(Drop)]
pub struct ClientReport<I, O> {
    /// The client's number.
    pub number: u32,
    pub status: u8,
    pub source: I,
    pub sink: O,
}
