/// A word that may stand before a declaration (JLS 8.1.1, 8.3.1, 8.4.3).
#[derive(Clone, Copy, Debug, PartialEq, Eq)]
pub enum Modifier {
    Public,
    Protected,
    Private,
    Static,
    Final,
    Volatile,
    Abstract,
}
