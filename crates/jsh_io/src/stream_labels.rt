// Which stream a sink in memory is.

/// Which stream of a desk a sink is, as far as it knows.
#[derive(Drop)]
pub(crate) enum Label {
    Unknown,
    Standard,
    File(String),
}
